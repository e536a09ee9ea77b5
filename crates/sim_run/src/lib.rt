//! A circuit along a stimulus, and its transcript.
#![tactic(auto)]

pub mod laws;
mod simulation;

pub use simulation::Simulation;
