//! Rectangles on the mask layers of nMOS, in half-units.
#![tactic(auto)]

mod label;
pub mod laws;
mod layer;
mod place;
mod rect;

pub use label::FlatLabel;
pub use layer::Layer;
pub use place::{Orient, Point};
pub use rect::{Rect, Shape};
