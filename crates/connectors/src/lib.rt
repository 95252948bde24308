// Connectors: class, number, and the block that is named. Refusals 6 and 7.
#![tactic(auto)]

mod class;
mod reach;
mod scope;

pub use class::{Class, Spot};
pub use reach::Reach;
pub use scope::Scope;
