//! The extent of a fabric: laws.
#![tactic(auto)]

pub mod laws;
