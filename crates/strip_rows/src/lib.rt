//! Strips of equal runs in neighbouring rows, from the runs of row after row, and the pairs of strips that touch.
#![tactic(auto)]

mod ends;
mod missing;
mod pairs;
mod rows;
mod strip;

pub use rows::StripRows;
pub use strip::{Strip, Strips};
pub use union_find::Pair;
