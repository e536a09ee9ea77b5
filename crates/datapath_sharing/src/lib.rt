//! Words of numbers and of operators, where equal ones share their nets.
#![tactic(auto)]

mod built;
mod operators;
mod words;

pub use built::Built;
pub use operators::{add_number, add_operator};
