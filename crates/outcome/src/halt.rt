//! Why work ends early.

ghost use Rattle.std.specs.Prelude.{◌≡◌};
ghost use Rattle.outcome.specs.declared.halt.Halt.TheVariants.{WriteFault, NoMemory};
ghost use Rattle.outcome.specs.Halt.{halt_of, halt_of_read};

use mp_base::{Broken, NoMemory, Refusal};
use outside::{Failed, ReadError};
use std::alloc::AllocError;

/// How a piece of work ended before all of its output was given.
#[derive(Drop)]
pub enum Halt {
    Refused(Broken),
    ReadFault,
    WriteFault,
    NoMemory,
}

impl From<AllocError> for Halt {
    ghost from_gives = { λ _ halt. halt ≡ NoMemory };

    fn from(_error: AllocError) -> Halt {
        Halt::NoMemory
    }
}

impl From<NoMemory> for Halt {
    ghost from_gives = { λ _ halt. halt ≡ NoMemory };

    fn from(_error: NoMemory) -> Halt {
        Halt::NoMemory
    }
}

// A write.
impl From<Failed> for Halt {
    ghost from_gives = { λ _ halt. halt ≡ WriteFault };

    fn from(_error: Failed) -> Halt {
        Halt::WriteFault
    }
}

impl From<ReadError> for Halt {
    ghost from_gives = { λ error halt. halt ≡ halt_of_read error };

    fn from(error: ReadError) -> Halt {
        match error {
            ReadError::Failed => Halt::ReadFault,
            ReadError::NoMemory => Halt::NoMemory,
        }
    }
}

impl From<Refusal> for Halt {
    ghost from_gives = { λ refusal halt. halt ≡ halt_of refusal };

    fn from(refusal: Refusal) -> Halt {
        match refusal {
            Refusal::Broken(broken) => Halt::Refused(broken),
            Refusal::NoMemory => Halt::NoMemory,
        }
    }
}
