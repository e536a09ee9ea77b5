//! The network of switches that a mask with labels draws.
#![tactic(auto)]

mod drivers;
mod extraction;
mod over;
mod tags;

pub use extraction::extract;
