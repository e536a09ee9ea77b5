//! Classes of things that pairs join.
#![tactic(auto)]

mod forest;
mod pair;

pub use forest::leasts;
pub use pair::Pair;
