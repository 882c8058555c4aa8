// Document 01's checked examples E1 to E8 as one table: definitions in specs, one theorem in proofs, no code.
#![tactic(auto)]
