//! That each CIF file draws a network or has a first broken rule: a law.
#![tactic(auto)]

pub mod laws;
