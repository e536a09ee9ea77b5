//! The flattening of CIF: definitions, calls, layers and labels, command by command.
#![tactic(auto)]

mod called;
mod fault;
mod flat;
mod label;
pub mod laws;
mod layer;
mod level;
mod names;
mod symbol;
mod table;
mod walker;
mod way;

pub use flat::{Flat, flatten};
