//! The table of a program's names, and what each name means.
#![tactic(auto)]

mod meaning;
mod named;
mod table;

pub use meaning::{Meanings, meanings_of};
pub use named::Named;
pub use table::NameTable;
