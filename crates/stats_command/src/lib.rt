//! The size of a source's chip.
#![tactic(auto)]

mod command;

pub use command::stats;
