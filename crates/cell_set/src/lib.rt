//! Sets of the cells of a row.
#![tactic(auto)]

mod bits;
mod set;
mod tree;

pub use set::CellSet;
