//! The commands of a CIF file, held densely: 16 bytes for each, and what its numbers, points and bytes take.
#![tactic(auto)]

mod arena;
mod cif;
mod store;
mod turn;
mod view;

pub use cif::Cif;
pub use turn::{ShortPoint, ShortTurn};
pub use view::{CommandView, ItemView};
