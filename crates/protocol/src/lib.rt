// The growth as a protocol, without bytes: definitions and theorems; no code.
#![tactic(auto)]
