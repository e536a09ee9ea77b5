//! The forms that a source text spells.
#![tactic(auto)]

mod forms;
pub mod laws;
mod limits;
mod reader;
mod text;

pub use forms::{Forms, Kind, Node};
pub use limits::NESTING_LIMIT;
pub use reader::read_forms;
pub use text::find_stray;
