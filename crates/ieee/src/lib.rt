// Floats: definitions in specs/, laws in proofs/. There is no code.
#![tactic(auto)]
