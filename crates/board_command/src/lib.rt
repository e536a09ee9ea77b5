//! The masks of a source, and the circuit that they draw on a board with parts.
#![tactic(auto)]

mod command;
pub mod laws;
mod links;
mod playing;
mod ready;

pub use command::board;
