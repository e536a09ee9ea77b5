//! A data path with fewer nets, which shows the same.
#![tactic(auto)]

mod reading;
mod reducing;

pub use reducing::reduced;
