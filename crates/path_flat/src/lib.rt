//! One net for the control and all slices of a data path.
#![tactic(auto)]

mod adding;
mod feeding;
mod flattening;
mod numbers;
mod places;
mod rows;

pub use flattening::flatten;
