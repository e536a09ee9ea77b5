//! Parts whose state is one number, which they drive.

ghost use Rattle.std.specs.Prelude.{◌≡◌, [], ◌∷◌};

use board::Part;

/// Counts its clocks, modulo 2^64.
#[derive(Drop)]
pub struct Counter {
    pub number: u64,
}

impl Counter {
    /// A counter at 0.
    pub fn new() -> Counter
        ensures { result.number ≡ 0 }
    {
        Counter { number: 0 }
    }
}

impl Part for Counter {
    ghost use Rattle.board_parts.specs.Numbers.{number_in, counted};

    ghost state = { λ c. c.number ∷ [] };

    ghost driven_in = { number_in };

    ghost after_seeing = { counted };

    fn drives(&self) -> u64 {
        self.number
    }

    fn clock(&mut self, _seen: u64) {
        self.number = self.number.wrapping_add(1);
    }
}

/// Shifts the lowest bit that it sees into its number, modulo 2^64.
#[derive(Drop)]
pub struct Shifter {
    pub number: u64,
}

impl Shifter {
    /// A shifter at 0.
    pub fn new() -> Shifter
        ensures { result.number ≡ 0 }
    {
        Shifter { number: 0 }
    }
}

impl Part for Shifter {
    ghost use Rattle.board_parts.specs.Numbers.{number_in, shifted};

    ghost state = { λ s. s.number ∷ [] };

    ghost driven_in = { number_in };

    ghost after_seeing = { shifted };

    fn drives(&self) -> u64 {
        self.number
    }

    fn clock(&mut self, seen: u64) {
        self.number = self.number.wrapping_mul(2).wrapping_add(seen % 2);
    }
}

/// Drives what it saw last.
#[derive(Drop)]
pub struct Echo {
    pub number: u64,
}

impl Echo {
    /// An echo of 0.
    pub fn new() -> Echo
        ensures { result.number ≡ 0 }
    {
        Echo { number: 0 }
    }
}

impl Part for Echo {
    ghost use Rattle.board_parts.specs.Numbers.{number_in, echoed};

    ghost state = { λ e. e.number ∷ [] };

    ghost driven_in = { number_in };

    ghost after_seeing = { echoed };

    fn drives(&self) -> u64 {
        self.number
    }

    fn clock(&mut self, seen: u64) {
        self.number = seen;
    }
}
