//! The tiles of which fabrics are made.
#![tactic(auto)]

mod tile;

pub use tile::{Tile, rects};
