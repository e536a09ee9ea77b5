//! What gives the inputs of a data path their values, and how each of its nets gets its value by that.
#![tactic(auto)]

mod sources;

pub use sources::{Source, Sources};
