//! What is added to a fabric for a net, in lists.

ghost use Rattle.std.specs.Prelude.{◌≡◌, ◌<◌, ◌+◌, ◌^◌, ◌++◌, All, OnOk, Some, length, slice_get};
ghost use Rattle.array_form.specs.Laying as laying;
ghost use Rattle.array_form.specs.Lists as form;
ghost use Rattle.nor_net.specs.declared.net.Part.TheVariants as part;
ghost use Rattle.band_lists.specs.Listed.{line_pair, lines_of, segments_of};

use crate::parts::kind_at;
use fabric::{Line, Segment, Side};
use nor_net::{Net, NetKind};
use std::alloc::AllocError;
use track_assign::Interval;

/// A column of a band.
#[derive(Clone, Copy)]
pub struct Column {
    pub band: u32,
    pub number: u32,
}

/// Adds the segments of a band: what they span, in the rows that were assigned, above the row of ground.
pub fn push_segments(
    segments: &mut Vec<Segment>,
    band: u32,
    spans: &[Interval],
    rows: &[u32],
) -> Result<(), AllocError>
    requires long { length rows.now ≡ length spans.now }
    requires rows { All (λ r. r + 1 < 2 ^ 32) rows.now }
    ensures { OnOk result (segments.new.items ≡ segments.old.items ++ segments_of band spans.now rows.now) }
{
    for k in 0..spans.len() {
        segments.push(Segment {
            band,
            row: rows[k] + 1,
            first: spans[k].first,
            last: spans[k].last,
        })?;
    }
    Ok(())
}

// A line in one band.
fn line(band: u32, column: u32, side: Side) -> Line
    ensures { result ≡ form.upright column side band band }
{
    Line {
        column,
        side,
        first_band: band,
        last_band: band,
    }
}

fn push_pair(lines: &mut Vec<Line>, band: u32, column: u32) -> Result<(), AllocError>
    ensures { OnOk result (lines.new.items ≡ lines.old.items ++ line_pair band column) }
{
    lines.extend_from_slice(&[line(band, column, Side::L), line(band, column, Side::R)])
}

fn push_stub(lines: &mut Vec<Line>, band: u32, column: u32, stub: bool) -> Result<(), AllocError>
    ensures { OnOk result (lines.new.items
        ≡ lines.old.items ++ laying.column_lines band column stub (Some part.Input)) }
{
    if stub {
        lines.push(line(band, column, Side::L))?;
    }
    Ok(())
}

// The lines in the column of a net.
fn push_column(
    lines: &mut Vec<Line>,
    net: &Net,
    n: u32,
    column: Column,
    stub: bool,
) -> Result<(), AllocError>
    requires { n < length net.now }
    ensures { OnOk result (lines.new.items
        ≡ lines.old.items ++ laying.column_lines column.band column.number stub (slice_get net.now n)) }
{
    match kind_at(net, n) {
        NetKind::Input => push_stub(lines, column.band, column.number, stub),
        NetKind::Gate => push_pair(lines, column.band, column.number),
        NetKind::Latch { source: None, .. } => Ok(()),
        NetKind::Latch {
            source: Some(_),
            ..
        } => push_pair(lines, column.band, column.number),
    }
}

/// Adds the lines of a band, where these are the columns of nets, and these tell which of them hold only a line.
pub fn push_lines(
    lines: &mut Vec<Line>,
    net: &Net,
    band: u32,
    columns: &[u32],
    stubs: &[bool],
) -> Result<(), AllocError>
    requires columns { length columns.now ≡ length net.now }
    requires stubs { length stubs.now ≡ length net.now }
    ensures { OnOk result (lines.new.items ≡ lines.old.items ++ lines_of band columns.now stubs.now net.now) }
{
    for n in 0..net.len() {
        let column = Column {
            band,
            number: columns[n as usize],
        };
        push_column(lines, net, n, column, stubs[n as usize])?;
    }
    Ok(())
}
