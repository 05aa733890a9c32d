// The chunk calls one after the other: fold, clear, fold. No code.
#![tactic(auto)]
