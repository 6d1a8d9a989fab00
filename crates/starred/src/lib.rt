// Document 01's starred blocks, as one claim on the definitions. It has no code.
#![tactic(auto)]
