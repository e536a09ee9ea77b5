//! The masks of a source, and the run of the circuit that they draw.
#![tactic(auto)]

mod command;
pub mod laws;
mod played;

pub use command::replay;
