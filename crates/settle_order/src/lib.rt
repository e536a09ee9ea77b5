//! Orders of the nodes of a network in which gates come before what they gate.
#![tactic(auto)]

mod check;
mod maker;
mod order;
mod orders;

pub use orders::Orders;
