//! The jumps of processes: expressions that are 1 where a process calls, where it returns, and where it goes on from a
//! place.
#![tactic(auto)]

mod exprs;
mod jumps;
mod moves;

pub use exprs::{add, put};
pub use jumps::{Jumps, all_jumps};
pub use moves::{Move, MoveKind, moves_in};
