//! The network of switches that a mask draws, and what it means that one is settled.
#![tactic(auto)]

pub mod laws;
mod limits;
mod network;

pub use limits::MOST_NODES_AND_CHANNELS;
pub use network::{Channel, ChannelKind, Network, Tag};
