//! Files and outputs whose calls never fail, at the call that fits exactly and the one that doesn't.

use mp_base::NoMemory;
use outside::{Depot, Failed, Sink, read_file, store, write_all};
use outside_doubles::{QuietDepot, QuietSink};
use std::alloc::Global;
use std::io;

/// How many bytes were read, where the read didn't fail.
type Count = Result<usize, Failed>;

// A depot with this room, in which 5 bytes are stored beside a file.
fn depot(alloc: Global, room: usize) -> Result<QuietDepot, NoMemory> {
    let mut depot = QuietDepot::new(alloc, room)?;
    depot.put("b", b"kept")?;
    let _ = store(&mut depot, "a", b"hello");
    Ok(depot)
}

fn read(depot: &mut QuietDepot, name: &str, at: u64) -> Count {
    let mut buf = [0; 9];
    depot.read_at(name, at, &mut buf)
}

// Reads a file that is held and one that isn't.
fn reads(alloc: Global, room: usize) -> Result<(Count, Count), NoMemory> {
    let mut depot = depot(alloc, room)?;
    let held = read(&mut depot, "b", 1);
    let stray = read(&mut depot, "c", 0);
    Ok((held, stray))
}

// What is read of a file that just fits.
fn stored(alloc: Global) -> Result<Option<usize>, NoMemory> {
    let mut depot = QuietDepot::new(alloc, 134)?;
    let _ = store(&mut depot, "a", b"hello");
    match read_file(alloc, &mut depot, "a", 9) {
        Ok(Some(text)) => Ok(Some(text.len())),
        _ => Ok(None),
    }
}

fn size(out: &QuietSink) -> Option<usize> {
    Some(out.bytes()?.len())
}

// How many bytes an output with room for 6 tells, after the call that fits and the one that doesn't.
fn told(alloc: Global) -> Result<(Option<usize>, Option<usize>), NoMemory> {
    let mut out = QuietSink::new(alloc, 6)?;
    let _ = write_all(&mut out, b"one");
    let _ = out.write(b"two");
    let fits = size(&out);
    let _ = out.write(b"!");
    Ok((fits, size(&out)))
}

fn show_reads(rt: &HostRuntime, room: usize) -> io::Result<()> {
    match reads(rt.alloc(), room) {
        Ok((held, stray)) => println!(rt; "room {room}: held {held:?}, stray {stray:?}"),
        Err(NoMemory) => println!(rt; "no memory"),
    }
}

fn show_told(rt: &HostRuntime) -> io::Result<()> {
    match (stored(rt.alloc()), told(rt.alloc())) {
        (Ok(size), Ok((fits, more))) => {
            println!(rt; "read back {size:?}, told {fits:?} and then {more:?}")
        }
        _ => println!(rt; "no memory"),
    }
}

pub(crate) fn show(rt: &HostRuntime) -> io::Result<()> {
    for room in [134, 133, 65, 64] {
        show_reads(rt, room)?;
    }
    show_told(rt)
}
