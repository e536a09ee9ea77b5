//! Files and outputs in memory, of which each call fails in turn.

use mp_base::{List, NoMemory};
use outside::{Depot, Failed, ReadError, Sink, read_file, store, write_all};
use outside_doubles::{MemDepot, MemSink};
use std::alloc::{AllocError, Global};
use std::io;

fn listed(alloc: Global, call: u64) -> Result<List<u64>, AllocError> {
    let mut calls = List::new(alloc);
    calls.push(call)?;
    Ok(calls)
}

// What comes of a file that is stored, and how many of its bytes are held.
type Stored = (Result<(), Failed>, Option<usize>);

// Stores 5 bytes, 2 at a time, where this call fails.
fn stored(alloc: Global, call: u64) -> Result<Stored, AllocError> {
    let mut depot = MemDepot::new(alloc, 2, listed(alloc, call)?);
    let result = store(&mut depot, "a", b"hello");
    let held = depot.get("a").map(|text| text.len());
    Ok((result, held))
}

fn show_stores(rt: &HostRuntime) -> io::Result<()> {
    for call in 0..5 {
        let (result, held) = stored(rt.alloc(), call)?;
        println!(rt; "store, where call {call} fails: {result:?}, holds {held:?}")?;
    }
    Ok(())
}

// A depot with a file of 5 bytes, of which this call fails.
fn held(alloc: Global, call: u64) -> Result<MemDepot, NoMemory> {
    let mut depot = MemDepot::new(alloc, 2, listed(alloc, call)?);
    depot.put("a", b"hello")?;
    Ok(depot)
}

// How many bytes are read of a file up to a limit, where this call fails.
fn read(alloc: Global, call: u64, name: &str, limit: usize) -> Result<Option<usize>, ReadError> {
    let Ok(mut depot) = held(alloc, call) else {
        return Err(ReadError::NoMemory);
    };
    match read_file(alloc, &mut depot, name, limit.min(99))? {
        Some(text) => Ok(Some(text.len())),
        None => Ok(None),
    }
}

fn show_read(rt: &HostRuntime, call: u64, name: &str, limit: usize) -> io::Result<()> {
    let size = read(rt.alloc(), call, name, limit);
    println!(rt; "read of {name} up to {limit}, where call {call} fails: {size:?}")
}

// How many of 3 bytes are read of a file from a place on.
fn part(depot: &mut MemDepot, name: &str, at: u64) -> Result<usize, Failed> {
    let mut buf = [0; 3];
    depot.read_at(name, at, &mut buf)
}

fn show_part(rt: &HostRuntime, depot: &mut MemDepot, name: &str, at: u64) -> io::Result<()> {
    let count = part(depot, name, at);
    println!(rt; "3 bytes of {name} from {at} on: {count:?}")
}

fn show_parts(rt: &HostRuntime) -> io::Result<()> {
    let Ok(mut depot) = held(rt.alloc(), 9) else {
        return println!(rt; "no memory");
    };
    show_part(rt, &mut depot, "a", 3)?;
    show_part(rt, &mut depot, "a", 7)?;
    show_part(rt, &mut depot, "b", 0)
}

fn show_write(rt: &HostRuntime, out: &mut MemSink, text: &str) -> io::Result<()> {
    let result = write_all(out, text.as_bytes());
    println!(rt; "write of {text}: {result:?}")
}

fn show_held(rt: &HostRuntime, out: &mut MemSink) -> io::Result<()> {
    let empty = out.write(b"");
    let held = String::from_utf8_lossy(rt.alloc(), out.bytes())?;
    println!(rt; "write of nothing: {empty:?}, holds {held}")
}

fn show_writes(rt: &HostRuntime) -> io::Result<()> {
    let mut out = MemSink::new(rt.alloc(), listed(rt.alloc(), 1)?);
    show_write(rt, &mut out, "one")?;
    show_write(rt, &mut out, "two")?;
    show_held(rt, &mut out)
}

pub(crate) fn show(rt: &HostRuntime) -> io::Result<()> {
    show_stores(rt)?;
    show_read(rt, 0, "a", 5)?;
    show_read(rt, 1, "a", 5)?;
    show_read(rt, 2, "a", 5)?;
    show_read(rt, 2, "a", 4)?;
    show_read(rt, 2, "b", 5)?;
    show_parts(rt)?;
    show_writes(rt)
}
