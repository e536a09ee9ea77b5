//! Whether a fabric takes what it is asked to take.

ghost use Rattle.std.specs.Prelude.{◌≡◌, ◌⊎◌, ◌<◌, ◌≤◌, ◌+◌, length, sum, All};
ghost use Rattle.std.specs.Bool.{OnTrue};
ghost use Rattle.fabric.specs.Plan.{bands, rows_of, IsSegment, IsLine, IsMark, SegmentsApart, LinesApart, MarksApart};
ghost use Rattle.fabric.specs.Plan.{SegmentAt, LineAt, EndsAt, BeginsAt};
ghost use Rattle.fabric.specs.Room.{limit};

use fabric::{Fabric, LIMIT, Line, Mark, Segment, Side};
use tile_cells::Tile;

// Whether the rows of all bands together are few enough.
fn are_few(rows: &[u32]) -> bool
    ensures { OnTrue result (sum rows.now < limit) }
{
    let mut total: usize = 0;
    for row in rows {
        total += *row as usize;
        if total >= LIMIT {
            return false;
        }
    }
    true
}

/// Whether there is a fabric with so many columns and with these rows.
pub(crate) fn is_room(columns: u32, rows: &[u32]) -> bool
    ensures columns { OnTrue result ((3 ≤ columns) × (columns < limit)) }
    ensures bands { OnTrue result ((1 ≤ length rows.now) × (length rows.now < limit)) }
    ensures rows { OnTrue result (All (λ r. 1 ≤ r) rows.now) }
    ensures sum { OnTrue result (sum rows.now < limit) }
{
    let bands = rows.len();
    let few = 3 <= columns && (columns as usize) < LIMIT && 1 <= bands && bands < LIMIT;
    few && rows.iter().all(|row| 1 <= *row) && are_few(rows)
}

fn segments_apart(segments: &[Segment], s: &Segment) -> bool
    ensures { OnTrue result (All (λ t. SegmentsApart t s.now) segments.now) }
{
    for t in segments {
        let (first, last) = (u64::from(t.first), u64::from(t.last));
        let before = last + 1 < u64::from(s.first);
        let after = u64::from(s.last) + 1 < first;
        if t.band == s.band && t.row == s.row && !before && !after {
            return false;
        }
    }
    true
}

// Whether there is a column to the right.
fn is_inner(f: &Fabric, column: u32) -> bool
    ensures { OnTrue result (column + 1 < f.now.columns) }
{
    u64::from(column) + 1 < u64::from(f.columns())
}

fn segment_lies(f: &Fabric, s: &Segment) -> bool
    ensures { OnTrue result (IsSegment f.now s.now) }
{
    let rows = f.rows();
    if s.band as usize >= rows.len() || s.row >= rows[s.band as usize] {
        return false;
    }
    1 <= s.row && 1 <= s.first && s.first <= s.last && is_inner(f, s.last)
}

/// Whether the fabric takes the segment.
pub(crate) fn takes_segment(f: &Fabric, s: &Segment) -> bool
    ensures place { OnTrue result (IsSegment f.now s.now) }
    ensures apart { OnTrue result (All (λ t. SegmentsApart t s.now) f.now.segments) }
    ensures room { OnTrue result (length f.now.segments + 1 < limit) }
{
    segment_lies(f, s) && segments_apart(f.segments(), s) && f.segments().len() + 1 < LIMIT
}

fn lines_apart(lines: &[Line], l: &Line) -> bool
    ensures { OnTrue result (All (λ m. LinesApart m l.now) lines.now) }
{
    for m in lines {
        let before = m.last_band < l.first_band;
        let after = l.last_band < m.first_band;
        if m.column == l.column && m.side == l.side && !before && !after {
            return false;
        }
    }
    true
}

fn line_lies(f: &Fabric, l: &Line) -> bool
    ensures { OnTrue result (IsLine f.now l.now) }
{
    let bands = f.rows().len();
    let ordered = l.first_band <= l.last_band && (l.last_band as usize) < bands;
    1 <= l.column && is_inner(f, l.column) && ordered
}

/// Whether the fabric takes the line.
pub(crate) fn takes_line(f: &Fabric, l: &Line) -> bool
    ensures place { OnTrue result (IsLine f.now l.now) }
    ensures apart { OnTrue result (All (λ m. LinesApart m l.now) f.now.lines) }
    ensures room { OnTrue result (length f.now.lines + 1 < limit) }
{
    line_lies(f, l) && lines_apart(f.lines(), l) && f.lines().len() + 1 < LIMIT
}

fn marks_apart(marks: &[Mark], m: &Mark) -> bool
    ensures { OnTrue result (All (λ n. MarksApart n m.now) marks.now) }
{
    for n in marks {
        if n.band == m.band && n.row == m.row && n.column == m.column {
            return false;
        }
    }
    true
}

// Whether a segment crosses the column.
fn has_segment(f: &Fabric, m: &Mark) -> bool
    ensures { OnTrue result (SegmentAt f.now m.now.band m.now.row m.now.column) }
{
    for s in f.segments() {
        if s.band == m.band && s.row == m.row && s.first <= m.column && m.column <= s.last {
            return true;
        }
    }
    false
}

// Whether a line is on that side.
fn has_line(f: &Fabric, side: Side, m: &Mark) -> bool
    ensures { OnTrue result (LineAt f.now side m.now.band m.now.column) }
{
    for l in f.lines() {
        let passes = l.first_band <= m.band && m.band <= l.last_band;
        if l.column == m.column && l.side == side && passes {
            return true;
        }
    }
    false
}

// Whether a line on the left side ends in the band.
fn has_end(f: &Fabric, m: &Mark) -> bool
    ensures { OnTrue result (EndsAt f.now m.now.band m.now.column) }
{
    for l in f.lines() {
        let ends = l.first_band <= m.band && m.band == l.last_band;
        if l.column == m.column && l.side == Side::L && ends {
            return true;
        }
    }
    false
}

// Whether a segment of the row begins in the first column.
fn has_start(f: &Fabric, m: &Mark) -> bool
    ensures { OnTrue result (BeginsAt f.now m.now.band m.now.row) }
{
    for s in f.segments() {
        if s.band == m.band && s.row == m.row && s.first == 1 {
            return true;
        }
    }
    false
}

// Whether the row is the pull-up row of a band.
fn is_top(f: &Fabric, m: &Mark) -> bool
    ensures { OnTrue result ((m.now.band < bands f.now) × (m.now.row ≡ rows_of f.now m.now.band)) }
{
    let rows = f.rows();
    (m.band as usize) < rows.len() && m.row == rows[m.band as usize]
}

fn is_tapped(f: &Fabric, m: &Mark) -> bool
    ensures { OnTrue result ((m.now.row ≡ 0) ⊎ SegmentAt f.now m.now.band m.now.row m.now.column) }
{
    m.row == 0 || has_segment(f, m)
}

fn stands(f: &Fabric, m: &Mark) -> bool
    ensures { OnTrue result (IsMark f.now m.now) }
{
    let in_band = (m.band as usize) < f.rows().len();
    match m.tile {
        Tile::TapL => has_line(f, Side::L, m) && is_tapped(f, m),
        Tile::TapR => has_line(f, Side::R, m) && is_tapped(f, m),
        Tile::Tran => has_line(f, Side::L, m) && has_line(f, Side::R, m) && has_segment(f, m),
        Tile::PullUp => is_top(f, m) && has_end(f, m),
        Tile::Under => m.column == 0 && in_band && (is_top(f, m) || has_start(f, m)),
    }
}

/// Whether the fabric takes the mark.
pub(crate) fn takes_mark(f: &Fabric, m: &Mark) -> bool
    ensures place { OnTrue result (IsMark f.now m.now) }
    ensures apart { OnTrue result (All (λ n. MarksApart n m.now) f.now.marks) }
    ensures room { OnTrue result (length f.now.marks + 1 < limit) }
{
    stands(f, m) && marks_apart(f.marks(), m) && f.marks().len() + 1 < LIMIT
}
