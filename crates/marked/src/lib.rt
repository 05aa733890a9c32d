// Document 01's marked examples, computed. No code.
#![tactic(auto)]
