//! That each program has a verdict by rules E20 to E45: laws.
#![tactic(auto)]

pub mod laws;
