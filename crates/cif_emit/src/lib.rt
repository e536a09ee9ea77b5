//! A chip as the commands of a CIF file (Mead and Conway, chapter 4).
#![tactic(auto)]

mod boxes;
mod chip;
mod cursor;
mod labels;
pub mod laws;
mod slices;
mod stream;
mod text;

pub use chip::emit;
pub use stream::emit_to;
pub use text::Text;
