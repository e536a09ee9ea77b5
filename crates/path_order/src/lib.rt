//! The order of the nets of a data path: the slices and the control in turn, from mark to mark.
#![tactic(auto)]

pub mod laws;
mod order;

pub use order::{Mark, order_of};
