// Definitions and laws that every crate shares; no code.
#![tactic(auto)]
