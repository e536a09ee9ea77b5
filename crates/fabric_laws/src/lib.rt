//! Laws of fabrics: what a fabric draws is the network of its switches.
#![tactic(auto)]

pub mod laws;
