// What rebuilding means: document 01's call rebuild and what is claimed of it; definitions and laws, no functions.
#![tactic(auto)]
