//! The rules of names in a program as it is written: E21, E22 and E37 to E39.
#![tactic(auto)]

mod arguments;
mod heads;
mod sorts;
mod uses;

pub use arguments::taken_name;
pub use heads::uneven_use;
pub use sorts::wrong_sort;
pub use uses::{outside_name, undefined_name};
