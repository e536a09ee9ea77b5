//! The labels of a data path's chip: one for each supply, phase and bit of a pad, in the corner of its net.
#![tactic(auto)]

mod corners;
mod labels;
mod places;

pub use corners::Corners;
pub use labels::corners_of;
