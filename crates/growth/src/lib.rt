// The calls of a growing store, over the bytes of their buffers: definitions and laws; no code.
#![tactic(auto)]
