//! Clusters of nodes that channels may join, and what each is given.
#![tactic(auto)]

mod board;
mod give;
mod links;
mod route;
mod sets;
mod spread;

pub use board::Board;
pub use links::{ends_gated, links_at_ends};
pub use sets::Sets;
