// What the figures of a month are worth: reports joined and added at the exported calls, from answers of the kept-register call. No code.
#![tactic(auto)]
