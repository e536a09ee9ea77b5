//! Laws of data paths that stand for transfers.
#![tactic(auto)]

pub mod laws;
