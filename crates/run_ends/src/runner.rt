//! What is run.

use outcome::Status;
use outside::{Depot, Sink};
use std::alloc::Global;

/// A program that words set to work on files and an output.
pub trait Runner {
    fn run<D: Depot, O: Sink>(
        &self,
        alloc: Global,
        words: &Vec<String>,
        depot: &mut D,
        out: &mut O,
    ) -> Status;
}
