//! The tiles of a mask: its squares of one colour, cut into rectangles along the rows.
#![tactic(auto)]

mod swept;
mod tile;

pub use swept::Swept;
pub use tile::Tile;
