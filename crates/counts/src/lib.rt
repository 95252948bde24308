// What an up/down counter has counted: definitions and theorems alone, no functions.
#![tactic(auto)]
