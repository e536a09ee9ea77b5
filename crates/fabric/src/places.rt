//! The segments and lines of a fabric in the order of their places, so that the one at a place is found by halving.

ghost use Rattle.std.specs.Prelude.{◌≡◌, ◌↔◌, ◌<◌, ◌≤◌, length, All, Contains, IfOk};
ghost use Rattle.fabric.specs.Plan.{bands, rows_of, IsSegment};
ghost use Rattle.fabric.specs.Room.{limit};
ghost use Rattle.fabric.specs.Drawing.{AreBases};
ghost use Rattle.fabric.specs.Places.{key_in_row, key_in_column, segment_key, line_key};
ghost use Rattle.fabric.specs.Places.{AreEntries, ArePlaces, IsInOrder, HasUpTo, IsLastUpTo};

use crate::drawing::bases;
use crate::fabric::Fabric;
use crate::limits::LIMIT;
use crate::thing::{Line, Segment, Side};
use mp_base::{List, NoMemory};
use std::alloc::Global;

// The number of a segment or a line in its list, and the key of the place where it begins.
#[derive(Clone, Copy)]
pub(crate) struct Entry {
    pub(crate) key: u64,
    pub(crate) number: u32,
}

// Entries for the segments and for the lines, in the order of their keys, and the heights of the bands.
#[derive(Drop)]
pub(crate) struct Places {
    pub(crate) bases: List<u32>,
    pub(crate) segments: Vec<Entry>,
    pub(crate) lines: Vec<Entry>,
}

// The places of a fabric.
pub(crate) fn places_of(alloc: Global, plan: &Fabric) -> Result<Places, NoMemory>
    ensures { IfOk result (ArePlaces plan.now) }
{
    plan.conditions();
    let bases = bases(alloc, plan, plan.rows.as_slice())?;
    let segments = segment_entries(alloc, plan, bases.as_slice(), plan.segments.as_slice())?;
    let lines = line_entries(alloc, plan.lines.as_slice())?;
    Ok(Places {
        bases,
        segments,
        lines,
    })
}

// The key of a place in a row.
pub(crate) fn row_key(plan: &Fabric, bases: &[u32], band: u32, row: u32, column: u32) -> u64
    requires bases { AreBases plan.now bases.now }
    requires band { band < bands plan.now }
    requires row { row ≤ rows_of plan.now band }
    ensures { result ≡ key_in_row plan.now band row column }
{
    let height = bases[band as usize] + 12 * row;
    u64::from(height) * LIMIT as u64 + u64::from(column)
}

// The key of a place on one side of a column.
pub(crate) fn column_key(side: Side, column: u32, band: u32) -> u64
    ensures { result ≡ key_in_column side column band }
{
    let side = match side {
        Side::L => 0,
        Side::R => 1,
    };
    (2 * u64::from(column) + side) * LIMIT as u64 + u64::from(band)
}

fn segment_entries(
    alloc: Global,
    plan: &Fabric,
    bases: &[u32],
    segments: &[Segment],
) -> Result<Vec<Entry>, NoMemory>
    requires bases { AreBases plan.now bases.now }
    requires places { All (IsSegment plan.now) segments.now }
    requires few { length segments.now < limit }
    ensures { IfOk result (λ v. AreEntries (segment_key plan.now) segments.now v.items) }
{
    let mut entries = List::new(alloc);
    for i in 0..segments.len() {
        let s = segments[i];
        let key = row_key(plan, bases, s.band, s.row, s.first);
        let number = i as u32;
        entries.push(Entry { key, number })?;
    }
    Ok(in_order(entries)?)
}

fn line_entries(alloc: Global, lines: &[Line]) -> Result<Vec<Entry>, NoMemory>
    requires few { length lines.now < limit }
    ensures { IfOk result (λ v. AreEntries line_key lines.now v.items) }
{
    let mut entries = List::new(alloc);
    for i in 0..lines.len() {
        let l = lines[i];
        let key = column_key(l.side, l.column, l.first_band);
        let number = i as u32;
        entries.push(Entry { key, number })?;
    }
    Ok(in_order(entries)?)
}

// The same entries in the order of their keys.
fn in_order(entries: List<Entry>) -> Result<Vec<Entry>, NoMemory>
    ensures same { IfOk result (λ v. (e : Entry) → Contains v.items e ↔ Contains entries e) }
    ensures sorted { IfOk result (λ v. IsInOrder v.items) }
{
    let mut entries = entries.into_vec();
    entries.sort_by_key(|entry| entry.key)?;
    Ok(entries)
}

// The number of the last entry whose key is at most this one.
pub(crate) fn last_up_to(entries: &[Entry], key: u64) -> u32
    requires sorted { IsInOrder entries.now }
    requires some { HasUpTo entries.now key }
    ensures { IsLastUpTo entries.now key result }
{
    let after = entries.partition_point(|entry| entry.key <= key);
    entries[after - 1].number
}
