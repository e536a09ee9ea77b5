//! What every crate shares: lists and names, places and refusals, values and pads, operators.
#![tactic(auto)]

mod limits;
mod list;
mod merge;
mod name;
mod numeral;
mod op;
mod pad;
mod pad_names;
mod refusal;
mod token;
mod value;

pub use limits::WEIGHT_LIMIT;
pub use list::List;
pub use merge::join;
pub use name::Name;
pub use numeral::push_number;
pub use op::Op;
pub use pad::{Inputs, Outputs, Pad, Pads, TritOutputs};
pub use pad_names::is_supply;
pub use refusal::{Broken, Family, NoMemory, Place, Refusal, Rule, Spot};
pub use token::{is_digit, is_token};
pub use value::{Trit, TritWord, Word};
