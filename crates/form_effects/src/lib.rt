//! What the forms of a program do: its names linked once, and by that the values of expressions, what active forms
//! write and where they jump.
#![tactic(auto)]

mod jump;
mod landing;
mod link;
mod links;
mod value;
mod written;

pub use jump::{Jump, jump_of};
pub use link::Links;
pub use written::written_to;
