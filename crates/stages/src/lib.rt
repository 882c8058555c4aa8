// What every cell holds at any point of a growth: definitions in specs, theorems in proofs, no code.
#![tactic(auto)]
