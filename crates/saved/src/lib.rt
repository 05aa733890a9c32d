// What a rule reads after its frame was saved: demand 3 through the saver, at the real code. No code.
#![tactic(auto)]
