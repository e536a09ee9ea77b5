//! Intervals packed into rows. Each line of the file has the intervals of one packing.
ghost use Rattle.std.specs.Prelude.{All, IfOk, IfSome};
ghost use Rattle.track_assign.specs.Density.{IsInterval};

use std::alloc::{AllocError, Global};
use std::{fs, io};
use track_assign::{Interval, pack};

fn interval(word: &str) -> Option<Interval>
    ensures { IfSome result IsInterval }
{
    let (first, last) = word.split_once('-')?;
    let first = first.parse().ok()?;
    let last = last.parse().ok()?;
    if first <= last && last < u32::MAX {
        Some(Interval { first, last })
    } else {
        None
    }
}

fn intervals(alloc: Global, line: &str) -> Result<Vec<Interval>, AllocError>
    ensures { IfOk result (λ intervals. All IsInterval intervals.items) }
{
    let mut intervals = Vec::new(alloc);
    for word in line.split(' ') {
        if let Some(interval) = interval(word) {
            intervals.push(interval)?;
        }
    }
    Ok(intervals)
}

fn show(rt: &HostRuntime, line: &str) -> io::Result<()> {
    let intervals = intervals(rt.alloc(), line)?;
    if intervals.len() > 100 {
        return println!(rt; "too many");
    }
    match pack(rt.alloc(), &intervals) {
        Ok(tracks) => println!(rt; "{line}: rows {} column {}", tracks.rows, tracks.column),
        Err(_) => println!(rt; "{line}: not enough memory"),
    }
}

/// The packings of a file.
pub(crate) fn show_packings(rt: &HostRuntime, name: &str) -> io::Result<()> {
    let text = fs::read_to_string(rt, name)?;
    for line in text.lines() {
        show(rt, line)?;
    }
    Ok(())
}
