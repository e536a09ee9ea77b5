//! The rules of names: E20 to E22 and E27.
#![tactic(auto)]

pub mod laws;
mod repeated;
mod sorts;
mod uses;

pub use name_meanings::{Meanings, NameTable, meanings_of};
pub use repeated::repeated_name;
pub use sorts::wrong_sort;
pub use uses::{set_input, undefined_name};
