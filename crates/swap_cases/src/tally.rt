//! A part that owns a list, and counts when it is let go.

ghost use Rattle.std.specs.Prelude.{[], ◌∷◌};

use board::Part;
use std::alloc::{AllocError, Global};
use std::cell::Cell;
use std::rc::Rc;

/// Drives what it saw last. When it is let go it adds one to a count that it shares.
pub(crate) struct Tally {
    number: u64,
    list: Vec<u64>,
    drops: Rc<Cell<u64>>,
}

impl Tally {
    /// A part that drives this number, and has it in its list.
    pub(crate) fn new(
        alloc: Global,
        number: u64,
        drops: Rc<Cell<u64>>,
    ) -> Result<Tally, AllocError> {
        let mut list = Vec::new(alloc);
        list.push(number)?;
        Ok(Tally {
            number,
            list,
            drops,
        })
    }
}

impl Drop for Tally {
    fn drop(self) {
        self.drops.set(self.drops.get().wrapping_add(1));
        let Tally {
            number: _,
            list: _,
            drops: _,
        } = self;
    }
}

impl Part for Tally {
    ghost use Rattle.board_parts.specs.Numbers.{number_in, echoed};

    ghost state = { λ t. t.number ∷ [] };

    ghost driven_in = { number_in };

    ghost after_seeing = { echoed };

    fn drives(&self) -> u64 {
        self.number
    }

    fn clock(&mut self, seen: u64) {
        self.number = seen;
    }
}
