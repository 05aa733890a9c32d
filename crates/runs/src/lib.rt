// What a folded chunk computes: no code, only the theorem.
#![tactic(auto)]
