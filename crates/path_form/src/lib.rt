//! Data paths: a control net and slices that are joined, what they are as one circuit, and the flat net of one.
#![tactic(auto)]

mod flattened;
pub mod laws;
mod path;

pub use flattened::Flattened;
pub use path::{Cast, DataPath, Lift, Piece};
