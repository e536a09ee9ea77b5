//! Laws of masks: each has nodes, channels and a network, or a first broken rule, told by its squares alone.
#![tactic(auto)]

pub mod laws;
