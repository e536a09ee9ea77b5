//! A test whether a data path is another with fewer nets.
#![tactic(auto)]

mod bands;
mod gates;
mod inputs;

pub use bands::is_reduction;
