//! The sweep over a mask: its tiles, those that share an edge, and the tile at a place.
#![tactic(auto)]

mod axis;
mod block;
mod grid;
mod hints;
mod repaint;
mod rows;
mod spot;
mod swept;

pub use mask_tiles::{Swept, Tile};
pub use swept::sweep;
pub use union_find::Pair;
