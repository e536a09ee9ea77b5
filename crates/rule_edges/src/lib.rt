//! The lambda rules of spacing, where the edges of single rectangles on the lambda grid show that they are kept.
#![tactic(auto)]

mod along;
mod apart;
mod edge;
mod facing;
mod grid;
mod offset;
mod spacing;
mod unrelated;

pub use spacing::edges_keep_spacing;
pub use unrelated::edges_keep_unrelated;
