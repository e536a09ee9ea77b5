//! The strips of each layer, and which of them touch.
#![tactic(auto)]

mod cutting;
mod event;
mod found;
mod live;
mod pairs;
mod part;
mod strips;

pub use cutting::regions;
pub use found::Regions;
pub use region_sweep::Pair;
