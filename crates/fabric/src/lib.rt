//! Fabrics: segments of metal in rows, lines of diffusion in columns, and tiles where they cross.
#![tactic(auto)]

mod chip;
mod drawing;
mod fabric;
mod limits;
mod numbers;
mod places;
mod switches;
mod thing;

pub use chip::{Chip, ChipLabel};
pub use fabric::Fabric;
pub use limits::LIMIT;
pub use thing::{Line, Mark, Segment, Side};
