//! The run of the circuit that masks draw, along a stimulus.
#![tactic(auto)]

mod command;
pub mod laws;

pub use command::sim;
