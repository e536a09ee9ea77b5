//! Networks that are the same up to the numbers of their nodes and channels: laws.
#![tactic(auto)]

pub mod laws;
