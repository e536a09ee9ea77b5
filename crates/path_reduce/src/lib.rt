//! What it means that a data path is another with fewer nets, and the law that it then shows the same.
#![tactic(auto)]

mod images;
pub mod laws;

pub use images::{Becomes, Images};
