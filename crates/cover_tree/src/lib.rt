//! Cells of a row that layers cover up to some row above, and how the colours change that the layers of a mask make.
#![tactic(auto)]

mod changes;
mod kinds;
mod layer_set;
mod node;
mod note;
mod palette;
mod part;
mod planes;
mod raise;
mod tree;
mod trees;

pub use tree::CoverTree;
