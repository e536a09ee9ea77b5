//! Settling a network: the least solution, in an order of its gates or by events.
#![tactic(auto)]

mod known;
mod look;
mod memory;
mod scan;
mod settler;
mod start;
mod wake;

pub use settler::Settler;
