//! Drawings: what it means that the channels of a network are the gates and latches of nets.
#![tactic(auto)]

pub mod laws;
