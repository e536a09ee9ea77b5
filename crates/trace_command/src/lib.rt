//! The trace of a source along a stimulus.
#![tactic(auto)]

mod command;

pub use command::trace;
