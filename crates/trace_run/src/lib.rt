//! A program along a stimulus, and its transcript.
#![tactic(auto)]

pub mod laws;
mod source;
mod tracer;
mod words;

pub use source::Source;
pub use tracer::Tracer;
