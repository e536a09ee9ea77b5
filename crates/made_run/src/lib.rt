//! The circuit of a chip along a made stimulus, and what is told of its run.
#![tactic(auto)]

mod run;
mod summing;
mod told;

pub use told::summary;
