// What is promised, in one record over the statements of the exported calls. No code.
#![tactic(auto)]
