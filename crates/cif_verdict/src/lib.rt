//! That each CIF file has a verdict: laws.
#![tactic(auto)]

pub mod laws;
