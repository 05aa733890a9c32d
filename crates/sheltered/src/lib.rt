// Nested frames at the exported calls: what kept_raising's lists are enough for, and what exposed tells. No code.
#![tactic(auto)]
