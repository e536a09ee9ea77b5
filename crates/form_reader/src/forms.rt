//! Forms, by indices into a list of nodes.

use mp_base::{List, Name, Place};

/// What a node is: a number, a symbol, or a list of nodes, by their indices.
#[derive(Drop)]
pub enum Kind {
    Number(u64),
    Symbol(Name),
    Group(List<u32>),
}

/// A number, symbol or list, and the place of its first byte.
#[derive(Drop)]
pub struct Node {
    pub place: Place,
    pub kind: Kind,
}

/// The forms of a text: all nodes in text order, the indices of those outside all lists, and the place of the text's
/// end.
#[derive(Drop)]
pub struct Forms {
    pub nodes: List<Node>,
    pub roots: List<u32>,
    pub end: Place,
}
