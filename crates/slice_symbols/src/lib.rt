//! What is drawn alike in each band of a chip, once: rectangles to the symbols that draw them.
#![tactic(auto)]

mod bands;
pub mod laws;
mod order;
mod standing;
mod symbols;

pub use bands::Bands;
pub use symbols::{Symbol, symbols_of};
