// Nested frames: rows and lists that are enough where calls raise later on. No code.
#![tactic(auto)]
