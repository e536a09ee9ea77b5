//! Sizes of rectangles, and of the channels and nodes of a network.
#![tactic(auto)]

mod sides;
mod sizes;

pub use sides::{area, shared_edge};
pub use sizes::Sizes;
