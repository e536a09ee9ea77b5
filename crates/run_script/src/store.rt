//! The files and the output of a run, of one type for all runs of a list.

ghost use Rattle.std.specs.Prelude.{◌-◌, ◌^◌};
ghost use Rattle.run_script.specs.Store.{output_bytes, store_files};

use outside::{Depot, Failed, Sink};
use outside_doubles::{MemDepot, MemSink, QuietDepot, QuietSink};

/// The files of a run.
#[derive(Drop)]
pub enum Store {
    /// Files in memory, of which the calls that a list numbers fail.
    Failing(MemDepot),
    /// Files in memory whose calls never fail.
    Quiet(QuietDepot),
    /// Each name is that of a file of blanks without an end, which tells nothing.
    Endless,
}

impl Store {
    /// What a file holds, of files whose calls may fail.
    pub fn get(&self, name: &str) -> Option<&[u8]> {
        match self {
            Store::Failing(depot) => depot.get(name),
            Store::Quiet(_) | Store::Endless => None,
        }
    }
}

impl Depot for Store {
    ghost held = { store_files };

    // Nothing is told of why a call fails: each count stands at its last value.
    ghost read_faults = { λ _. 2 ^ 64 - 1 };

    ghost write_faults = { λ _. 2 ^ 64 - 1 };

    fn read_at(&mut self, name: &str, at: u64, buf: &mut [u8]) -> Result<usize, Failed> {
        match self {
            Store::Failing(depot) => depot.read_at(name, at, buf),
            Store::Quiet(depot) => depot.read_at(name, at, buf),
            Store::Endless => {
                buf.fill(b' ');
                Ok(buf.len())
            }
        }
    }

    fn create(&mut self, name: &str) -> Result<(), Failed> {
        match self {
            Store::Failing(depot) => depot.create(name),
            Store::Quiet(depot) => depot.create(name),
            Store::Endless => Ok(()),
        }
    }

    fn append(&mut self, name: &str, bytes: &[u8]) -> Result<usize, Failed> {
        match self {
            Store::Failing(depot) => depot.append(name, bytes),
            Store::Quiet(depot) => depot.append(name, bytes),
            Store::Endless => Ok(bytes.len()),
        }
    }
}

/// The output of a run.
#[derive(Drop)]
pub enum Output {
    /// An output in memory, of which the calls that a list numbers fail.
    Failing(MemSink),
    /// An output in memory whose calls never fail.
    Quiet(QuietSink),
}

impl Output {
    /// What was written, where that is told.
    pub fn told(&self) -> Option<&[u8]> {
        match self {
            Output::Failing(sink) => Some(sink.bytes()),
            Output::Quiet(sink) => sink.bytes(),
        }
    }
}

impl Sink for Output {
    ghost held = { output_bytes };

    // Nothing is told of why a call fails: the count stands at its last value.
    ghost faults = { λ _. 2 ^ 64 - 1 };

    fn write(&mut self, bytes: &[u8]) -> Result<usize, Failed> {
        match self {
            Output::Failing(sink) => sink.write(bytes),
            Output::Quiet(sink) => sink.write(bytes),
        }
    }
}
