//! The program `mp_lint`: tells what is wrong with a source and a stimulus for it, in words.
#![tactic(auto)]

mod ending;

use ending::Ending;
use lint::{File, Report, lint};
use source_files::TEXT_LIMIT;
use std::io::{self, Read, Write};
use std::process::ExitCode;
use std::{env, fs};

// The words behind the program's name.
fn words_of(rt: &HostRuntime) -> io::Result<Vec<String>> {
    let mut words = Vec::new(rt.alloc());
    for word in env::args(rt)?.skip(1) {
        words.push(word)?;
    }
    Ok(words)
}

// A file, and of a longer one than is allowed a byte more than that.
fn read_text(rt: &HostRuntime, name: &str) -> io::Result<Vec<u8>> {
    let mut bytes = Vec::new(rt.alloc());
    fs::open(rt, name)?
        .take(TEXT_LIMIT as u64 + 1)
        .read_to_end(&mut bytes)?;
    Ok(bytes)
}

// The same; one that can't be read is told on standard error, with the system's reason.
fn text_of(rt: &HostRuntime, name: &str) -> Result<Vec<u8>, Ending> {
    match read_text(rt, name) {
        Ok(bytes) => Ok(bytes),
        Err(error) => {
            let ending = Ending::of_read(&error);
            eprintln!(rt; "mp_lint: {name} can't be read: {error}").map_err(Ending::of_write)?;
            Err(ending)
        }
    }
}

fn file_of<'a>(name: &'a str, bytes: &'a [u8]) -> File<'a> {
    File {
        name: name.as_bytes(),
        bytes,
    }
}

fn report_of(rt: &HostRuntime, source: &str, stimulus: Option<&str>) -> Result<Report, Ending> {
    let text = text_of(rt, source)?;
    let source = file_of(source, &text);
    match stimulus {
        None => Ok(lint(rt.alloc(), source, None)?),
        Some(name) => {
            let text = text_of(rt, name)?;
            let stimulus = file_of(name, &text);
            Ok(lint(rt.alloc(), source, Some(stimulus))?)
        }
    }
}

fn tell(rt: &HostRuntime, source: &str, stimulus: Option<&str>) -> Result<Ending, Ending> {
    let report = report_of(rt, source, stimulus)?;
    io::writer(rt)
        .write_all(&report.text)
        .map_err(Ending::of_write)?;
    Ok(if report.refused {
        Ending::Refused
    } else {
        Ending::Clean
    })
}

fn perform(rt: &HostRuntime) -> Result<Ending, Ending> {
    let words = words_of(rt).map_err(Ending::of_words)?;
    match words.as_slice() {
        [source] if !source.starts_with('-') => tell(rt, source, None),
        [source, stimulus] if !source.starts_with('-') && !stimulus.starts_with('-') => {
            tell(rt, source, Some(stimulus))
        }
        _ => {
            println!(rt; "usage: mp_lint SRC [STIM]").map_err(Ending::of_write)?;
            Ok(Ending::Usage)
        }
    }
}

fn main(rt: HostRuntime) -> ExitCode {
    match perform(&rt) {
        Ok(ending) => ExitCode::from(ending.status()),
        Err(ending) => ExitCode::from(ending.status()),
    }
}
