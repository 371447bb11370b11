// Theorems only: specs/ states them, proofs/ shows them.
#![tactic(auto)]
