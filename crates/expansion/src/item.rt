//! What an expression becomes in the body of a function, where the operands of the use aren't known yet.

use mp_base::{List, Place};
use std::alloc::AllocError;

/// A part of what an expression becomes.
#[derive(Clone, Copy)]
pub(crate) enum Item {
    /// The expression at an index, without its operands. It gets the place of the expression at the other index, or in
    /// a body that of the outermost use, which isn't known yet.
    Copied { expr: u32, at: Option<u32> },
    /// All that the operand for the argument of an index becomes.
    Argument(u32),
}

/// What is kept of a function's template, which is made where it is used if it isn't at hand.
#[derive(Drop)]
pub(crate) enum Slot {
    Unmade,
    /// It has more items than a program may have expressions.
    TooMany,
    Made(List<Item>),
}

/// An expression of the expansion: the index of what is written, and its place.
#[derive(Clone, Copy)]
pub(crate) struct Piece {
    pub(crate) expr: u32,
    pub(crate) place: Place,
}

/// Why an expression wasn't expanded.
#[derive(Drop)]
pub(crate) enum Stop {
    NoMemory,
    /// It becomes more expressions than a program may have.
    TooLong,
}

impl From<AllocError> for Stop {
    ghost use Rattle.std.specs.Prelude.{◌≡◌};
    ghost use Rattle.expansion.specs.declared.item.Stop.TheVariants.{NoMemory};

    ghost from_gives = { λ _ stop. stop ≡ NoMemory };

    fn from(_error: AllocError) -> Stop {
        Stop::NoMemory
    }
}
