//! The frame of a program as it is written: a program without functions that keeps and breaks most rules alike.
#![tactic(auto)]

mod copies;
mod framing;
pub mod laws;

pub use framing::frame;
