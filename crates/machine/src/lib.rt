// Event machines: definitions and theorems only (specs/, proofs/).
#![tactic(auto)]
