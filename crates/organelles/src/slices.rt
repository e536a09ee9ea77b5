//! The net of one slice of a word, and how slices are joined.

use mp_base::List;
use nor_net::{Net, NetId};

/// A word operator that has a net of its own.
#[derive(Clone, Copy, PartialEq, Eq, Debug)]
pub enum Organelle {
    Add,
    Sub,
    Inc,
    Dec,
    And,
    Or,
    Xor,
    Not,
    Left,
    Right,
    Zero,
    Equal,
    Less,
}

/// What joins each slice to the next. A chain up gives `to` of each slice the value of `from` in the slice below, and
/// one down that in the slice above; the end that is open is 0.
#[derive(Clone, Copy, PartialEq, Eq, Debug)]
pub enum Chain {
    Up { from: NetId, to: NetId },
    Down { from: NetId, to: NetId },
}

/// A net with a bit of its own in each slice, bit k in slice k.
#[derive(Clone, Copy, PartialEq, Eq, Debug)]
pub struct Programmed {
    pub net: NetId,
    pub bits: u64,
}

/// The net of each slice, the chains between slices, and the bits in which slices differ. The `to` of a chain and the
/// net of a program are inputs.
#[derive(Drop)]
pub struct SliceNet {
    pub net: Net,
    pub chains: List<Chain>,
    pub programs: List<Programmed>,
}

/// The net that has the value of a word operator: a word, or a bit in the top slice.
#[derive(Clone, Copy, PartialEq, Eq, Debug)]
pub struct Ports {
    pub result: NetId,
}
