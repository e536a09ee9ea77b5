//! A part that counts how often it moves.

ghost use Rattle.std.specs.Prelude.{[], ◌∷◌};

use board::Part;

/// Drives a thousand times the number of its moves, and what it saw last, modulo 2^64.
#[derive(Drop)]
pub(crate) struct Watch {
    pub moves: u64,
    pub seen: u64,
}

impl Part for Watch {
    ghost use Rattle.board_cases.specs.Watch.{told_by, moved_by};

    ghost state = { λ w. w.moves ∷ w.seen ∷ [] };

    ghost driven_in = { told_by };

    ghost after_seeing = { moved_by };

    fn drives(&self) -> u64 {
        self.moves.wrapping_mul(1000).wrapping_add(self.seen)
    }

    fn clock(&mut self, seen: u64) {
        self.moves = self.moves.wrapping_add(1);
        self.seen = seen;
    }
}
