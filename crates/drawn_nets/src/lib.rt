//! What a network does that draws nets: its values are theirs.
#![tactic(auto)]

pub mod laws;
