//! Lists of runs, which are files of the system: what comes of their lines, and the exit statuses of the runs of such a
//! list, for programs of cases.
#![tactic(auto)]

use mp_base::NoMemory;
use run_ends::{Runner, exit_text, push_line};
use run_script::{File, exit_of, set};
use std::alloc::AllocError;
use std::env::Args;
use std::{fs, io};

/// A program that the system's words set to work on the system's files and an output with so much room.
pub trait Exits {
    /// Its exit status.
    fn status(&self, rt: &HostRuntime, room: &mut [u8], args: io::Result<Args>) -> u8;
}

// Sets a file to what a file of the system holds.
fn load(rt: &HostRuntime, files: &mut Vec<File>, line: &str, rest: &str) -> io::Result<()> {
    let (name, place) = rest.split_once(' ').unwrap_or((rest, rest));
    let text = fs::read(rt, place)?;
    set(rt.alloc(), files, name, text)?;
    println!(rt; "{line}")
}

// Prints what comes of a line over the files that are set.
fn show_line<R: Runner>(
    rt: &HostRuntime,
    runner: &R,
    files: &mut Vec<File>,
    line: &str,
) -> io::Result<()> {
    let mut told = String::new(rt.alloc());
    match push_line(rt.alloc(), &mut told, runner, files, line) {
        Ok(()) => print!(rt; "{told}"),
        Err(NoMemory) => Err(io::Error::from(AllocError)),
    }
}

// What comes of the lines of a list. A line `load NAME PLACE` sets a file to what the system has at that place.
fn follow<R: Runner>(rt: &HostRuntime, runner: &R, name: &str) -> io::Result<()> {
    let list = fs::read_to_string(rt, name)?;
    let mut files = Vec::new(rt.alloc());
    for line in list.lines() {
        match line.strip_prefix("load ") {
            Some(rest) => load(rt, &mut files, line, rest)?,
            None => show_line(rt, runner, &mut files, line)?,
        }
    }
    Ok(())
}

/// Prints what comes of the lines of each list.
pub fn show_lists<R: Runner>(rt: &HostRuntime, runner: &R, names: &[&str]) -> io::Result<()> {
    for name in names {
        follow(rt, runner, name)?;
    }
    Ok(())
}

fn show_exit<E: Exits>(rt: &HostRuntime, program: &E, line: &str) -> io::Result<()> {
    let mut exit = exit_of(rt.alloc(), line)?;
    let args = exit.args(rt.alloc());
    let told = exit.told;
    let status = program.status(rt, &mut exit.room, args);
    exit.room.truncate(told);
    let text = exit_text(rt.alloc(), status, &exit.room)?;
    print!(rt; "{line}\n{text}")
}

/// Prints the exit status of each line of a list, and that where memory for the words was wanting.
pub fn show_exits<E: Exits>(rt: &HostRuntime, program: &E, name: &str) -> io::Result<()> {
    let list = fs::read_to_string(rt, name)?;
    for line in list.lines() {
        show_exit(rt, program, line)?;
    }
    let want = Err(io::Error::from(AllocError));
    let status = program.status(rt, &mut [0; 200], want);
    println!(rt; "no memory for words\n    {status}")
}
