// What is known of a circuit from its fields so far, and what each field adds to it.
#![tactic(auto)]

mod known;

pub use known::Known;
