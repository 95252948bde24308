// A row of a text, split to its end into cells that are held as start and size; what these say; and their bytes in a field.
#![tactic(auto)]

mod content;
mod held;
mod packed;
mod row;

pub use content::{content_size, put_content};
pub use held::{Held, Span};
pub use row::Row;
