//! From guarded transfers to a data path.
#![tactic(auto)]

mod allocating;
mod latches;
mod next_values;
mod tasks;

pub use allocating::allocate;
