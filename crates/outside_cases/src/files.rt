//! The system's files.

use outside::{Depot, Failed};
use std::{fs, io};
use system_outside::FileDepot;

/// The system's files.
type Files<'a> = FileDepot<'a, HostRuntime>;

// How many bytes are read of the file that is made, from a place on.
fn read(depot: &mut Files<'_>, at: u64) -> Result<usize, Failed> {
    let mut buf = [0u8; 4];
    depot.read_at("made", at, &mut buf)
}

fn show_early(rt: &HostRuntime, depot: &mut Files<'_>) -> io::Result<()> {
    let early = read(depot, 0);
    let made = depot.create("made");
    println!(rt; "a file is read: {early:?}, and made: {made:?}")
}

fn show_growth(rt: &HostRuntime, depot: &mut Files<'_>) -> io::Result<()> {
    let three = depot.append("made", b"abc");
    let two = depot.append("made", b"de");
    println!(rt; "3 bytes go to its end: {three:?}, and 2: {two:?}")
}

fn show_part(rt: &HostRuntime, depot: &mut Files<'_>) -> io::Result<()> {
    let mut buf = [0u8; 4];
    let count = depot.read_at("made", 3, &mut buf);
    let read = String::from_utf8_lossy(rt.alloc(), &buf[..2])?;
    println!(rt; "it is read from 3 on: {count:?}, {read}")
}

fn show_end(rt: &HostRuntime, depot: &mut Files<'_>) -> io::Result<()> {
    let end = read(depot, 5);
    let made = depot.create("made");
    let count = read(depot, 0);
    println!(rt; "from 5 on: {end:?}. It is made again: {made:?}, and read: {count:?}")
}

// A file is looked for, made, grown, read up to its end, and emptied.
fn show_files(rt: &HostRuntime) -> io::Result<()> {
    let mut depot = FileDepot::new(rt);
    show_early(rt, &mut depot)?;
    show_growth(rt, &mut depot)?;
    show_part(rt, &mut depot)?;
    show_end(rt, &mut depot)
}

fn show_faults(rt: &HostRuntime) -> io::Result<()> {
    let mut depot = FileDepot::new(rt);
    let made = depot.create("no such folder/made");
    let grown = depot.append("absent", b"abc");
    println!(rt; "a file is made in no folder: {made:?}; one grows that isn't there: {grown:?}")
}

// A file is gone between two calls: it doesn't grow, isn't read, and isn't there again.
fn show_gone(rt: &HostRuntime) -> io::Result<()> {
    let mut depot = FileDepot::new(rt);
    let made = depot.create("made");
    let three = depot.append("made", b"abc");
    fs::remove_file(rt, "made")?;
    let two = depot.append("made", b"de");
    let count = read(&mut depot, 0);
    println!(rt;
        "a file is made: {made:?}, and grows: {three:?}. When it is gone: {two:?}, and read: {count:?}"
    )
}

fn show_full(rt: &HostRuntime) -> io::Result<()> {
    let mut depot = FileDepot::new(rt);
    let made = depot.create("/dev/full");
    let grown = depot.append("/dev/full", b"abc");
    println!(rt; "a full device: {made:?}, {grown:?}")
}

pub(crate) fn show(rt: &HostRuntime) -> io::Result<()> {
    show_files(rt)?;
    show_faults(rt)?;
    show_gone(rt)?;
    show_full(rt)
}
