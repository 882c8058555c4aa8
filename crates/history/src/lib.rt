// Demand 3 over bytes: definitions in specs, theorems in proofs, no code.
#![tactic(auto)]
