//! Why a run ends without a deck.

use mp_base::{Broken, Refusal};
use std::io::{self, ErrorKind};

#[derive(Drop)]
pub(crate) enum Halt {
    Refused(Broken),
    Usage,
    ReadFault,
    WriteFault,
    NoMemory,
}

impl Halt {
    /// Of words that can't be had, or aren't text.
    pub fn of_words(error: io::Error) -> Halt {
        match error.kind() {
            ErrorKind::OutOfMemory => Halt::NoMemory,
            _ => Halt::Usage,
        }
    }

    /// Of a file or an input that can't be read.
    pub fn of_read(error: io::Error) -> Halt {
        match error.kind() {
            ErrorKind::OutOfMemory => Halt::NoMemory,
            _ => Halt::ReadFault,
        }
    }

    /// Of an output that can't be written.
    pub fn of_write(error: io::Error) -> Halt {
        match error.kind() {
            ErrorKind::OutOfMemory => Halt::NoMemory,
            _ => Halt::WriteFault,
        }
    }

    /// The exit status: that of `macpitts` for the same reason.
    pub fn status(&self) -> u8 {
        match self {
            Halt::Refused(_) => 1,
            Halt::Usage => 2,
            Halt::ReadFault => 3,
            Halt::WriteFault => 4,
            Halt::NoMemory => 5,
        }
    }
}

impl From<Refusal> for Halt {
    fn from(refusal: Refusal) -> Halt {
        match refusal {
            Refusal::NoMemory => Halt::NoMemory,
            Refusal::Broken(broken) => Halt::Refused(broken),
        }
    }
}
