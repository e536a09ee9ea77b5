//! What the steps from a program to its transfers hand on, and the first of them: where all that a program stores and
//! shows has its cell.
#![tactic(auto)]

mod calls;
mod enabling;
mod index;
mod laid;
mod laying;
mod layout;
mod places;
mod values;

pub use enabling::Enabling;
pub use laying::layout_of;
pub use layout::Layout;
