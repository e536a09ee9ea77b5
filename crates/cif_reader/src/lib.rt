//! Reading CIF.
#![tactic(auto)]

mod bytes;
mod command;
mod found;
pub mod laws;
mod numbers;
mod read;
mod words;

pub use read::read_cif;
