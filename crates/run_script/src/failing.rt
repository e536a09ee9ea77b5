//! Calls that fail.

ghost use Rattle.std.specs.Prelude.{◌<◌};

use crate::files::File;
use mp_base::{List, NoMemory};
use outside_doubles::{MemDepot, MemSink};
use std::alloc::{AllocError, Global};

/// Whose calls fail.
#[derive(Clone, Copy)]
pub enum Side {
    Files,
    Output,
}

/// The calls that fail, by their numbers, and whether an append takes one byte or at most a hundred.
#[derive(Clone, Copy)]
pub struct Failing {
    pub of_files: Option<u64>,
    pub of_output: Option<u64>,
    pub bytewise: bool,
}

/// No call fails.
pub const NONE: Failing = Failing {
    of_files: None,
    of_output: None,
    bytewise: false,
};

fn listed(alloc: Global, call: Option<u64>) -> Result<List<u64>, AllocError> {
    let mut calls = List::new(alloc);
    if let Some(call) = call {
        calls.push(call)?;
    }
    Ok(calls)
}

impl Side {
    /// One call fails.
    pub fn failing(self, call: u64) -> Failing {
        let (of_files, of_output) = match self {
            Side::Files => (Some(call), None),
            Side::Output => (None, Some(call)),
        };
        Failing {
            of_files,
            of_output,
            bytewise: false,
        }
    }
}

impl Failing {
    // How many bytes an append takes at most.
    fn most(self) -> usize
        ensures { 0 < result }
    {
        if self.bytewise { 1 } else { 100 }
    }

    /// The files in memory, where these calls fail.
    pub fn depot(self, alloc: Global, files: &[File]) -> Result<MemDepot, NoMemory> {
        let mut depot = MemDepot::new(alloc, self.most(), listed(alloc, self.of_files)?);
        for file in files {
            depot.put(file.name.as_str(), &file.text)?;
        }
        Ok(depot)
    }

    /// An output in memory, where these calls fail.
    pub fn sink(self, alloc: Global) -> Result<MemSink, AllocError> {
        Ok(MemSink::new(alloc, listed(alloc, self.of_output)?))
    }
}
