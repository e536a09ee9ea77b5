//! The entries of a program: an expression or a form for each node that stands for one.
#![tactic(auto)]

mod exprs;
mod forms;
mod nodes;
mod ranks;

pub use exprs::{append_entries, entries, exprs_of};
pub use forms::forms_of;
pub use nodes::{behind, elements_at, is_symbol, item, items_at, name_at, node_at, number_at};
pub use ranks::{Ranks, ranks_of};
