// The theory of liveness: row equations, sweeps, runs and kept lists over any code. It has no code of its own.
#![tactic(auto)]
