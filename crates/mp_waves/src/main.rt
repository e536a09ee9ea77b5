//! The program `mp_waves`: prints the registers, flags, places of processes and pads of a source along a stimulus, as a
//! value change dump.
#![tactic(auto)]

mod running;

use outcome::{Halt, Status, refuse, say};
use outside::{Failed, Sink};
use running::waves_of;
use std::env;
use std::io::{self, ErrorKind};
use std::process::ExitCode;
use system_outside::{FileDepot, OutSink};

// The words behind the program's name.
fn words_of(rt: &HostRuntime) -> io::Result<Vec<String>> {
    let mut words = Vec::new(rt.alloc());
    for word in env::args(rt)?.skip(1) {
        words.push(word)?;
    }
    Ok(words)
}

// Does what the words say.
fn answer<O: Sink>(rt: &HostRuntime, words: &[String], out: &mut O) -> Status {
    let alloc = rt.alloc();
    let [source, stimulus] = words else {
        return say(out, b"usage: mp_waves SRC STIM\n", Status::Usage);
    };
    let mut depot = FileDepot::new(rt);
    match waves_of(alloc, &mut depot, source.as_str(), stimulus.as_str()) {
        Ok(text) => say(out, &text, Status::Done),
        Err(Halt::Refused(broken)) => refuse(alloc, out, &broken),
        Err(Halt::ReadFault) => Status::ReadFault,
        Err(Halt::WriteFault) => Status::WriteFault,
        Err(Halt::NoMemory) => Status::NoMemory,
    }
}

fn perform(rt: &HostRuntime) -> Status {
    let words = match words_of(rt) {
        Ok(words) => words,
        Err(error) if error.kind() == ErrorKind::OutOfMemory => return Status::NoMemory,
        Err(_) => Vec::new(rt.alloc()),
    };
    let mut out = OutSink::new(io::writer(rt));
    let status = answer(rt, words.as_slice(), &mut out);
    match out.flush() {
        Ok(()) => status,
        Err(Failed) => Status::WriteFault,
    }
}

fn main(rt: HostRuntime) -> ExitCode {
    let status = match perform(&rt) {
        Status::Done => 0,
        Status::Refused => 1,
        Status::Usage => 2,
        Status::ReadFault => 3,
        Status::WriteFault => 4,
        Status::NoMemory => 5,
    };
    ExitCode::from(status)
}
