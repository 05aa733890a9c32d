// What is promised of every exported call, over its statement. No code.
#![tactic(auto)]
