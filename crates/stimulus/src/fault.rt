//! Why a text is no stimulus.

use std::alloc::AllocError;

/// The number of a rule, with the offset where it is broken, or want of memory.
#[derive(Drop)]
pub enum Fault {
    Breaks(u16, u32),
    NoMemory,
}

impl From<AllocError> for Fault {
    ghost use Rattle.std.specs.Prelude.{◌≡◌};
    ghost use Rattle.stimulus.specs.declared.fault.Fault.TheVariants.{NoMemory};

    ghost from_gives = { λ _ e. e ≡ NoMemory };

    fn from(_error: AllocError) -> Fault {
        Fault::NoMemory
    }
}
