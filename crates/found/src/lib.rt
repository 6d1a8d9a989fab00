// A found map is valid, the listing lists it whole, and its colours are those of a cut near the least: laws in proofs/.
// There is no code.
#![tactic(auto)]
