//! The size of the network that masks draw.
#![tactic(auto)]

mod command;

pub use command::net;
