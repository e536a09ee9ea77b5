//! How a run ends.

use mp_base::NoMemory;
use std::io::{self, ErrorKind};

/// How a run ends, as `macpitts` ends for the same reason.
#[derive(Clone, Copy)]
pub(crate) enum Ending {
    Clean,
    Refused,
    Usage,
    ReadFault,
    WriteFault,
    NoMemory,
}

impl Ending {
    /// With words that can't be had, or aren't text.
    pub fn of_words(error: io::Error) -> Ending {
        match error.kind() {
            ErrorKind::OutOfMemory => Ending::NoMemory,
            _ => Ending::Usage,
        }
    }

    /// With a file that can't be read.
    pub fn of_read(error: &io::Error) -> Ending {
        match error.kind() {
            ErrorKind::OutOfMemory => Ending::NoMemory,
            _ => Ending::ReadFault,
        }
    }

    /// With an output that can't be written.
    pub fn of_write(error: io::Error) -> Ending {
        match error.kind() {
            ErrorKind::OutOfMemory => Ending::NoMemory,
            _ => Ending::WriteFault,
        }
    }

    /// The exit status.
    pub fn status(self) -> u8 {
        match self {
            Ending::Clean => 0,
            Ending::Refused => 1,
            Ending::Usage => 2,
            Ending::ReadFault => 3,
            Ending::WriteFault => 4,
            Ending::NoMemory => 5,
        }
    }
}

impl From<NoMemory> for Ending {
    fn from(_error: NoMemory) -> Ending {
        Ending::NoMemory
    }
}
