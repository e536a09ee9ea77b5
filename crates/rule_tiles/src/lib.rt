//! The lambda rules of widths and of contact cuts, judged by the tiles of masks.
#![tactic(auto)]

mod area;
mod backed;
mod blocks;
mod cuts;
mod width;

pub use cuts::{first_bare_cut, first_odd_cut};
pub use width::first_narrow;
