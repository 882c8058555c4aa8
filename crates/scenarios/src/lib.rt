// Growths of small stores from encode to close, drives and every refusal, by computation: definitions in specs, theorems in proofs.
// There is no code.
#![tactic(auto)]
