// A frame saver through any history of calls: entries and leavings, matched and not, and what stands again after each. It has no code of its own.
#![tactic(auto)]
