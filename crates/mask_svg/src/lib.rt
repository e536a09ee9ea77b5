//! Pictures of drawings, as SVG.
#![tactic(auto)]

mod frame;
mod height;
mod style;
mod text;
mod writing;

pub use writing::picture;
