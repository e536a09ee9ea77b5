//! A clock of a program: its values are settled in an order, its outputs shown, and its state goes on to the next.
#![tactic(auto)]

mod clockwork;
mod memory;
mod seat;
mod seats;
mod settle;
mod step;

pub use clockwork::Clockwork;
