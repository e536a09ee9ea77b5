//! What an output shows in the settled clocks, added up.
#![tactic(auto)]

pub mod laws;
