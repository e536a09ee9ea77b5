//! The lines of a stimulus file: their words, and what each says.
#![tactic(auto)]

mod form;
mod part;
mod piece;

pub use form::{Assignment, Form, is_clock, read_form};
pub use part::Part;
pub use piece::{Piece, is_skipped, line_at, line_end, take_words};
