//! Writing CIF: which commands have a text, and their texts.
#![tactic(auto)]

mod text;
mod view;
mod write;

pub use view::{write_file, write_view};
pub use write::{write_command, write_end};
