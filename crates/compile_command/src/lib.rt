//! The masks of a source.
#![tactic(auto)]

mod command;

pub use command::compile;
