// What the kit's libraries lack: walks over places, pages of rules, choices by a test. No code.
#![tactic(auto)]
