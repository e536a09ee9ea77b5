//! One slice of each word operator, as NOR gates.
#![tactic(auto)]

mod building;
pub mod laws;
mod slices;
mod table;

pub use building::build;
pub use slices::{Chain, Organelle, Ports, Programmed, SliceNet};
