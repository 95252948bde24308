// What a circuit is, and the bytes that it has: definitions and theorems alone.
#![tactic(auto)]
