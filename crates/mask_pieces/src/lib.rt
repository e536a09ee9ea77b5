//! The conductors and channels of a mask, cut into pieces along its tiles.
#![tactic(auto)]

mod cut;
mod cutting;
mod layered;
mod masks;
mod merging;
mod over;
mod piece;
mod tile_numbers;

pub use cut::{Cut, cut_masks};
pub use layered::Numbered;
pub use masks::Masks;
pub use piece::{Part, Piece};
