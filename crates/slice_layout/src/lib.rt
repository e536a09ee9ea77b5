//! The layout of the slices of a data path: the columns of nets, the spans of segments and their rows, the same in
//! every slice; and what joins the bands of a path, by number.
#![tactic(auto)]

pub mod entries;
pub mod layout;
pub mod looking;
mod pins;
