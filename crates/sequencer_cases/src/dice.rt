//! Random numbers, the same in each run.

/// Where the numbers come from.
#[derive(Drop)]
pub(crate) struct Dice {
    state: u64,
}

impl Dice {
    /// Dice whose numbers this seed tells.
    pub(crate) fn new(seed: u64) -> Dice {
        Dice {
            state: seed.wrapping_mul(0x9e37_79b9_7f4a_7c15),
        }
    }

    /// A number of 32 random bits.
    pub(crate) fn throw(&mut self) -> u64 {
        self.state = self
            .state
            .wrapping_mul(6_364_136_223_846_793_005)
            .wrapping_add(1_442_695_040_888_963_407);
        self.state >> 32
    }
}
