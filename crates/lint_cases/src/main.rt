//! Reports of the linter of sources and stimuli with mistakes, which are listed with their files in `rows.txt`.
#![tactic(auto)]

use lint::{File, Report, lint};
use mp_base::NoMemory;
use std::alloc::AllocError;
use std::fs;
use std::io::{self, Write};

fn report_of(rt: &HostRuntime, source: File, stimulus: Option<File>) -> io::Result<Report> {
    match lint(rt.alloc(), source, stimulus) {
        Ok(report) => Ok(report),
        Err(NoMemory) => Err(io::Error::from(AllocError)),
    }
}

// The report of the files that a row names.
fn follow(rt: &HostRuntime, row: &str) -> io::Result<Report> {
    let (source, stimulus) = row.split_once(' ').unwrap_or((row, ""));
    let text = fs::read(rt, source)?;
    let source = File {
        name: source.as_bytes(),
        bytes: &text,
    };
    if stimulus.is_empty() {
        return report_of(rt, source, None);
    }
    let text = fs::read(rt, stimulus)?;
    let stimulus = File {
        name: stimulus.as_bytes(),
        bytes: &text,
    };
    report_of(rt, source, Some(stimulus))
}

fn show(rt: &HostRuntime, row: &str) -> io::Result<()> {
    let report = follow(rt, row)?;
    let end = if report.refused { "refused" } else { "done" };
    println!(rt; "# {row}: {end}")?;
    io::writer(rt).write_all(&report.text)?;
    println!(rt; "")
}

fn main(rt: HostRuntime) -> io::Result<()> {
    let rows = fs::read_to_string(&rt, "rows.txt")?;
    for row in rows.lines() {
        show(&rt, row)?;
    }
    Ok(())
}
