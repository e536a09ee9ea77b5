//! Intervals in the order of their first columns, each put into the first row that is free.

ghost use Rattle.std.specs.Prelude.{◌≡◌, ◌≤◌, ◌<◌, ◌^◌, All, IfOk, length, slice_set};
ghost use Rattle.track_assign.specs.Rows.{IsFreeRow, IsPlaced, ArePacked, AreAscending, AreDistinct};

use std::alloc::{AllocError, Global};

/// An interval, lengthened by one column, and its place among those that were given.
#[derive(Clone, Copy, Debug)]
pub(crate) struct Entry {
    pub first: u32,
    pub end: u32,
    pub index: u32,
}

// The first row that ends before a column, or their number if none does.
fn free_row(ends: &[u32], first: u32) -> usize
    ensures { IsFreeRow ends.now first result }
{
    for row in 0..ends.len() {
        if ends[row] < first {
            return row;
        }
    }
    ends.len()
}

// Puts one interval into a row.
fn place(ends: &mut Vec<u32>, column: &mut u32, entry: Entry) -> Result<usize, AllocError>
    ensures { IfOk result (λ row. IsPlaced ends.old.items column.old entry ends.new.items column.new row) }
{
    let row = free_row(ends, entry.first);
    if row == ends.len() {
        ends.push(entry.end)?;
        *column = entry.first;
    } else {
        ends[row] = entry.end;
    }
    Ok(row)
}

/// The row of each interval by its index, the last column of each row, and where the last row was opened.
#[derive(Drop)]
pub(crate) struct Rows {
    pub row: Vec<u32>,
    pub ends: Vec<u32>,
    pub column: u32,
}

/// Puts each interval into a row, which is told at the interval's index.
pub(crate) fn assign(alloc: Global, entries: &[Entry]) -> Result<Rows, AllocError>
    requires ascending { AreAscending entries.now }
    requires few { length entries.now < 2 ^ 32 }
    requires inside { All (λ e. e.index < length entries.now) entries.now }
    requires distinct { AreDistinct entries.now }
    ensures sized { IfOk result (λ rows. length rows.row.items ≡ length entries.now) }
    ensures few { IfOk result (λ rows. length rows.ends.items ≤ length entries.now) }
    ensures packed { IfOk result (λ rows. ArePacked entries.now rows.row.items rows.ends.items rows.column) }
{
    let mut row = vec![in alloc; 0; entries.len()]?;
    let mut ends = Vec::new(alloc);
    let mut column = 0;
    for entry in entries {
        let at = place(&mut ends, &mut column, *entry)?;
        row[entry.index as usize] = at as u32;
    }
    Ok(Rows { row, ends, column })
}
