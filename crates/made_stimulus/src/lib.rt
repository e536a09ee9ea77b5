//! Stimuli that are made of numbers.
#![tactic(auto)]

pub mod laws;
