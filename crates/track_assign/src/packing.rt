//! The packing of intervals.

ghost use Rattle.std.specs.Prelude.{◌≡◌, ◌<◌, ◌^◌, All, IfOk, IsPermutation, length};
ghost use Rattle.std.specs.List.Sorted.{IsNonDecreasingBy};
ghost use Rattle.track_assign.specs.Density.{IsInterval, IsDensity, AreApart};
ghost use Rattle.track_assign.specs.Rows.{entries_from};

use crate::rows::{Entry, Rows, assign};
use mp_base::{List, NoMemory};
use std::alloc::{AllocError, Global};

/// Columns from the first to the last.
#[derive(Clone, Copy, Debug, PartialEq, Eq)]
pub struct Interval {
    pub first: u32,
    pub last: u32,
}

/// Where intervals were put: the row of each in the order in which they were given, the number of rows, and the least
/// column over which as many lengthened intervals lie as there are rows.
#[derive(Drop)]
pub struct Tracks {
    pub row: List<u32>,
    pub rows: u32,
    pub column: u32,
}

fn entries_of(alloc: Global, intervals: &[Interval]) -> Result<Vec<Entry>, AllocError>
    requires within { All IsInterval intervals.now }
    requires few { length intervals.now < 2 ^ 32 }
    ensures { IfOk result (λ es. es.items ≡ entries_from 0 intervals.now) }
{
    let mut entries = Vec::new(alloc);
    for index in 0..intervals.len() {
        let interval = intervals[index];
        entries.push(Entry {
            first: interval.first,
            end: interval.last + 1,
            index: index as u32,
        })?;
    }
    Ok(entries)
}

// The same, in the order of their first columns.
fn sorted_entries(alloc: Global, intervals: &[Interval]) -> Result<Vec<Entry>, AllocError>
    requires within { All IsInterval intervals.now }
    requires few { length intervals.now < 2 ^ 32 }
    ensures permuted { IfOk result (λ es. IsPermutation (entries_from 0 intervals.now) es.items) }
    ensures long { IfOk result (λ es. length es.items ≡ length intervals.now) }
    ensures ascending { IfOk result (λ es. IsNonDecreasingBy (λ e. e.first) es.items) }
{
    let mut entries = entries_of(alloc, intervals)?;
    entries.sort_unstable_by_key(|entry| entry.first);
    Ok(entries)
}

/// Packs intervals, each lengthened by one column to the right, into the fewest rows in which no two of them share a
/// column: as many as lie over one column (left-edge packing, as in channel routing). No intervals take no row.
///
/// # Errors
/// Want of memory.
pub fn pack(alloc: Global, intervals: &[Interval]) -> Result<Tracks, NoMemory>
    requires within { All IsInterval intervals.now }
    requires few { length intervals.now < 2 ^ 32 }
    ensures long { IfOk result (λ tracks. length tracks.row ≡ length intervals.now) }
    ensures within { IfOk result (λ tracks. All (λ row. row < tracks.rows) tracks.row) }
    ensures apart { IfOk result (λ tracks. AreApart intervals.now tracks.row) }
    ensures density { IfOk result (λ tracks. IsDensity intervals.now tracks.rows tracks.column) }
{
    let entries = sorted_entries(alloc, intervals)?;
    let Rows { row, ends, column } = assign(alloc, &entries)?;
    Ok(Tracks {
        row: List::from_vec(row),
        rows: ends.len() as u32,
        column,
    })
}
