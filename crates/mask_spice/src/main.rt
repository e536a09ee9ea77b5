//! The program `mask_spice`: prints the network that a CIF file draws, as a deck for SPICE.
#![tactic(auto)]

mod drawn;
mod halt;

use drawn::deck_of;
use halt::Halt;
use mp_base::{Broken, Family, Spot};
use std::alloc::Global;
use std::io::{self, Read, Write};
use std::process::ExitCode;
use std::{env, fs};

// The words behind the program's name.
fn words_of(rt: &HostRuntime) -> io::Result<Vec<String>> {
    let mut words = Vec::new(rt.alloc());
    for word in env::args(rt)?.skip(1) {
        words.push(word)?;
    }
    Ok(words)
}

fn read_input(rt: &HostRuntime) -> io::Result<Vec<u8>> {
    let mut bytes = Vec::new(rt.alloc());
    rt.reader().read_to_end(&mut bytes)?;
    Ok(bytes)
}

// The bytes of the file that the one word names, or of the input where there is no word.
fn bytes_of(rt: &HostRuntime) -> Result<Vec<u8>, Halt> {
    let words = words_of(rt).map_err(Halt::of_words)?;
    match words.as_slice() {
        [] => read_input(rt).map_err(Halt::of_read),
        [name] if !name.starts_with('-') => fs::read(rt, name.as_str()).map_err(Halt::of_read),
        _ => Err(Halt::Usage),
    }
}

fn print_deck(rt: &HostRuntime) -> Result<(), Halt> {
    let bytes = bytes_of(rt)?;
    let text = deck_of(rt.alloc(), bytes)?;
    io::writer(rt).write_all(&text).map_err(Halt::of_write)
}

fn letter(family: Family) -> &'static str {
    match family {
        Family::E => "E",
        Family::S => "S",
        Family::C => "C",
        Family::F => "F",
        Family::N => "N",
        Family::B => "B",
        Family::L => "L",
        Family::P => "P",
    }
}

// A broken rule in a line, as `macpitts net` tells it. Those of texts, drawing and labels are broken at an offset.
fn print_line(rt: &HostRuntime, broken: &Broken) -> io::Result<()> {
    let (family, number) = (letter(broken.rule.family), broken.rule.number);
    match &broken.spot {
        Spot::Offset(offset) => println!(rt; "error {family}{number} at {offset}"),
        _ => println!(rt; "error {family}{number}"),
    }
}

fn perform(rt: &HostRuntime) -> Result<(), Halt> {
    match print_deck(rt) {
        Err(Halt::Refused(broken)) => {
            print_line(rt, &broken).map_err(Halt::of_write)?;
            Err(Halt::Refused(broken))
        }
        Err(Halt::Usage) => {
            println!(rt; "usage: mask_spice [CIF]").map_err(Halt::of_write)?;
            Err(Halt::Usage)
        }
        other => other,
    }
}

fn main(rt: HostRuntime) -> ExitCode {
    match perform(&rt) {
        Ok(()) => ExitCode::from(0),
        Err(halt) => ExitCode::from(halt.status()),
    }
}
