// Searches below a bound: definitions and laws only (specs/, proofs/).
#![tactic(auto)]
