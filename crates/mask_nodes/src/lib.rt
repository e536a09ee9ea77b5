//! The nodes and the channels that a mask draws, by their numbers.
#![tactic(auto)]

mod channels;
mod columns;
mod drawing;
mod ends;
mod gates;
mod kinds;
mod masks;
mod spots;

pub use drawing::{Drawing, draw};
pub use mask_pieces::{Part, Piece};
