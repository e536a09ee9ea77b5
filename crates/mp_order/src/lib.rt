//! The order of evaluation of a program, and rule E33.
#![tactic(auto)]

mod demands;
mod earliest;
mod evaluation;
mod judge;
pub mod laws;
mod search;
mod table;

pub use evaluation::{Evaluation, evaluation_order};
