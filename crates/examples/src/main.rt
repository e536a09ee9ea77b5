//! Runs of the whole program over files in memory, as lists say: how each ends, what it prints and what it writes; and
//! exit statuses over the system's files.
#![tactic(auto)]

use outcome::Status;
use outside::{Depot, Sink};
use run_ends::Runner;
use run_lists::{Exits, show_exits, show_lists};
use std::alloc::Global;
use std::env::Args;
use std::io;
use system_run::{exit_status, perform, run_with_parts};

// The whole program, with the parts that a chip may be joined to.
struct Whole;

impl Runner for Whole {
    fn run<D: Depot, O: Sink>(
        &self,
        alloc: Global,
        words: &Vec<String>,
        depot: &mut D,
        out: &mut O,
    ) -> Status {
        run_with_parts(alloc, words, depot, out)
    }
}

impl Exits for Whole {
    fn status(&self, rt: &HostRuntime, room: &mut [u8], args: io::Result<Args>) -> u8 {
        exit_status(perform(rt.alloc(), rt, room, args))
    }
}

/// The lists of runs, each a file.
const LISTS: [&str; 16] = [
    "examples.txt",
    "sources.txt",
    "texts.txt",
    "functions.txt",
    "stimuli.txt",
    "transfers.txt",
    "masks.txt",
    "cif.txt",
    "drawn.txt",
    "circuits.txt",
    "rules.txt",
    "words.txt",
    "commands.txt",
    "chips.txt",
    "boards.txt",
    "made.txt",
];

fn main(rt: HostRuntime) -> io::Result<()> {
    show_lists(&rt, &Whole, &LISTS)?;
    show_exits(&rt, &Whole, "exits.txt")
}
