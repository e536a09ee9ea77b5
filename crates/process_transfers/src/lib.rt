//! The transfers of a program of which the cells and the enables of the forms are known: those of its `setq`, and
//! those by which its processes go from place to place and keep the entries of their stacks.
#![tactic(auto)]

mod forms;
mod roles;
mod transfers;

pub use transfers::{Transfers, transfers_of};
