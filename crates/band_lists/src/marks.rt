//! The marks of a band.

ghost use Rattle.std.specs.Prelude.{◌≡◌, ◌<◌, ◌≤◌, ◌+◌, ◌^◌, ◌++◌, All, IfSome, OnOk, Some, false, length};
ghost use Rattle.std.specs.Prelude.{slice_get, slice_index, suc};
ghost use Rattle.array_form.specs.Laying as laying;
ghost use Rattle.array_form.specs.Lists as form;
ghost use Rattle.nor_net.specs.declared.net.Part.TheVariants as part;
ghost use Rattle.nor_net.specs.Shape as net_shape;
ghost use Rattle.band_lists.specs.Listed.{AreRows, marks_of, marks_at, transistors_of};

use crate::lists::Column;
use crate::parts::{gate_inputs, kind_at, phase_index};
use fabric::Mark;
use nor_net::{Net, NetId, NetKind, Phase};
use std::alloc::{AllocError, Global};
use tile_cells::Tile;
use track_assign::Tracks;

/// A mark on a segment.
pub fn mark(tile: Tile, tracks: &Tracks, segment: u32, column: Column) -> Mark
    requires there { segment < length tracks.now.row }
    requires rows { AreRows tracks.now (length tracks.now.row) }
    ensures { result ≡ form.mark tile column.band (suc (slice_index tracks.now.row segment)) column.number }
{
    Mark {
        tile,
        band: column.band,
        row: *tracks.row.at(segment) + 1,
        column: column.number,
    }
}

// A transistor in the row of each input, once for each. A net that was seen has the gate's stamp.
fn push_transistors(
    marks: &mut Vec<Mark>,
    seen: &mut [u32],
    stamp: u32,
    tracks: &Tracks,
    column: Column,
    inputs: &[NetId],
) -> Result<(), AllocError>
    requires rows { AreRows tracks.now (length tracks.now.row) }
    requires seen { length seen.old ≤ length tracks.now.row }
    requires inputs { All (λ i. i.0 < length seen.old) inputs.now }
    requires fresh { All (λ s. s < stamp) seen.old }
    ensures marks { OnOk result (marks.new.items
        ≡ marks.old.items ++ transistors_of tracks.now.row column inputs.now) }
    ensures stamped { OnOk result (All (λ s. s ≤ stamp) seen.new) }
{
    for input in inputs {
        let segment = input.0;
        if seen[segment as usize] != stamp {
            seen[segment as usize] = stamp;
            marks.push(mark(Tile::Tran, tracks, segment, column))?;
        }
    }
    Ok(())
}

// A gate has its value on the left, with a pull-up; its right line is ground, and transistors are between them.
fn push_gate(
    marks: &mut Vec<Mark>,
    seen: &mut [u32],
    tracks: &Tracks,
    n: u32,
    column: Column,
    inputs: &[NetId],
) -> Result<(), AllocError>
    requires rows { AreRows tracks.now (length tracks.now.row) }
    requires there { n < length seen.old }
    requires few { length seen.old < 2 ^ 32 }
    requires seen { length seen.old ≤ length tracks.now.row }
    requires inputs { All (λ i. i.0 < length seen.old) inputs.now }
    requires fresh { All (λ s. s < n + 1) seen.old }
    ensures marks { OnOk result (marks.new.items
        ≡ marks.old.items ++ marks_at tracks.now (length seen.old) column false n (Some (part.Gate inputs.now))) }
    ensures stamped { OnOk result (All (λ s. s ≤ n + 1) seen.new) }
{
    marks.extend_from_slice(&[
        mark(Tile::TapL, tracks, n, column),
        Mark {
            tile: Tile::TapR,
            band: column.band,
            row: 0,
            column: column.number,
        },
        Mark {
            tile: Tile::PullUp,
            band: column.band,
            row: tracks.rows + 1,
            column: column.number,
        },
    ])?;
    push_transistors(marks, seen, n + 1, tracks, column, inputs)
}

// A latch stores on the left and takes its data from the right, through a transistor in the row of its phase.
fn push_latch(
    marks: &mut Vec<Mark>,
    tracks: &Tracks,
    nets: u32,
    n: u32,
    column: Column,
    phase: Phase,
    source: Option<NetId>,
) -> Result<(), AllocError>
    requires rows { AreRows tracks.now (nets + 3) }
    requires there { n < nets }
    requires few { nets + 3 < 2 ^ 32 }
    requires data_ { IfSome source (λ d. d.0 < nets) }
    ensures { OnOk result (marks.new.items
        ≡ marks.old.items ++ marks_at tracks.now nets column false n (Some (part.Latch phase source))) }
{
    let Some(data) = source else {
        return Ok(());
    };
    marks.extend_from_slice(&[
        mark(Tile::TapL, tracks, n, column),
        mark(Tile::TapR, tracks, data.0, column),
        mark(Tile::Tran, tracks, nets + phase_index(phase), column),
    ])
}

fn push_stub(
    marks: &mut Vec<Mark>,
    tracks: &Tracks,
    n: u32,
    column: Column,
    stub: bool,
) -> Result<(), AllocError>
    requires rows { AreRows tracks.now (length tracks.now.row) }
    requires there { n < length tracks.now.row }
    ensures { OnOk result (marks.new.items
        ≡ marks.old.items ++ marks_at tracks.now (length tracks.now.row) column stub n (Some part.Input)) }
{
    if stub {
        marks.push(mark(Tile::TapL, tracks, n, column))?;
    }
    Ok(())
}

// The marks in the column of a net.
fn push_column(
    marks: &mut Vec<Mark>,
    seen: &mut [u32],
    net: &Net,
    tracks: &Tracks,
    n: u32,
    column: Column,
    stub: bool,
) -> Result<(), AllocError>
    requires rows { AreRows tracks.now (length net.now + 3) }
    requires shape { net_shape.IsNet net.now }
    requires there { n < length net.now }
    requires seen { length seen.old ≡ length net.now }
    requires fresh { All (λ s. s < n + 1) seen.old }
    ensures marks { OnOk result (marks.new.items
        ≡ marks.old.items ++ marks_at tracks.now (length net.now) column stub n (slice_get net.now n)) }
    ensures stamped { OnOk result (All (λ s. s ≤ n + 1) seen.new) }
{
    match kind_at(net, n) {
        NetKind::Input => push_stub(marks, tracks, n, column, stub),
        NetKind::Gate => push_gate(marks, seen, tracks, n, column, gate_inputs(net, n)),
        NetKind::Latch { phase, source } => {
            push_latch(marks, tracks, net.len(), n, column, phase, source)
        }
    }
}

/// Adds the marks of a band, in the rows that were assigned.
pub fn push_marks(
    alloc: Global,
    marks: &mut Vec<Mark>,
    net: &Net,
    band: u32,
    columns: &[u32],
    stubs: &[bool],
    tracks: &Tracks,
) -> Result<(), AllocError>
    requires columns { length columns.now ≡ length net.now }
    requires stubs { length stubs.now ≡ length net.now }
    requires rows { AreRows tracks.now (length net.now + 3) }
    requires shape { net_shape.IsNet net.now }
    ensures { OnOk result (marks.new.items
        ≡ marks.old.items ++ marks_of tracks.now band columns.now stubs.now net.now) }
{
    let mut seen = vec![in alloc; 0; net.len() as usize]?;
    for n in 0..net.len() {
        let column = Column {
            band,
            number: columns[n as usize],
        };
        push_column(marks, &mut seen, net, tracks, n, column, stubs[n as usize])?;
    }
    Ok(())
}
