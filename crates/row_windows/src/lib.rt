//! Windows of a row of cells, around what may change from it to the next row.
#![tactic(auto)]

mod collect;
mod find;
mod reach;
mod window;

pub use collect::collect_windows;
pub use find::find_windows;
pub use window::Window;
