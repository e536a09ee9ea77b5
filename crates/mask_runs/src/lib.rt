//! Masks that are made of layers, as colours of squares, and the runs of one colour in a row.
#![tactic(auto)]

pub mod laws;
mod mask;
mod run;

pub use mask::{Layers, Mask};
pub use run::Run;
