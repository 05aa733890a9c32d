// What the exported calls answer where the call inside does not say it itself, and that each has one result. No code.
#![tactic(auto)]
