//! The words of a linter: what each rule wants, and the findings that are told with the lines of a file.
#![tactic(auto)]

mod excerpt;
mod finding;
mod likeness;
mod operators;
mod piece;
mod rules;

pub use finding::{Finding, Findings, Grade, Note, Second};
pub use likeness::is_like;
pub use operators::{foreign, op_word};
pub use piece::{Piece, push_pieces};
pub use rules::{advice, meaning};
