// What the calls on a record are: definitions and theorems alone, no functions.
#![tactic(auto)]
