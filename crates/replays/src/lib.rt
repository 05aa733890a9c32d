// What a replayed day is worth: an accepted trace is a run of the machine, and the report is of that run. No code.
#![tactic(auto)]
