//! When the forms of a program are active: copies of its expressions, the expressions that tell at which places its
//! processes are, and the enables of its forms.
#![tactic(auto)]

mod copies;
mod enabling;
mod exprs;
mod forms;
mod places;
mod roots;

pub use enabling::enable_forms;
