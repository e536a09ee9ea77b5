//! Pull-ups, and paths of transistors from them to ground: laws.
#![tactic(auto)]

pub mod laws;
