// What smaller limits change: definitions and theorems alone, no functions.
#![tactic(auto)]
