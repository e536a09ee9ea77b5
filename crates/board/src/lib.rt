//! A device on a board with parts.
#![tactic(auto)]

mod board;
pub mod laws;
mod link;
mod moving;
mod pads;
mod part;
mod plan;
mod planning;
mod reading;
mod swapping;

pub use board::Board;
pub use link::Link;
pub use part::{NamedPart, Part};
pub use plan::{Plan, Swap};
pub use planning::read_plan;
pub use reading::read_links;
