//! What is added to a fabric for a net that is laid out.

ghost use Rattle.std.specs.Prelude.{IfOk};
ghost use Rattle.nor_net.specs.Shape.{IsNet};
ghost use Rattle.weinberger.specs.Layouts.{AreListed, IsLayout};

use crate::layout::Layout;
use array_form::Band;
use band_lists::lists::{push_lines, push_segments};
use band_lists::marks::push_marks;
use fabric::{Line, Mark, Segment};
use nor_net::Net;
use std::alloc::{AllocError, Global};

/// Segments, lines and marks.
#[derive(Drop)]
pub(crate) struct Added {
    pub segments: Vec<Segment>,
    pub lines: Vec<Line>,
    pub marks: Vec<Mark>,
}

/// The segments, lines and marks of a net that is laid out in a band.
pub(crate) fn listed(
    alloc: Global,
    net: &Net,
    band: &Band,
    layout: &Layout,
) -> Result<Added, AllocError>
    requires shape { IsNet net.now }
    requires layout { IsLayout band.now net.now layout.now }
    ensures { IfOk result (λ listed. AreListed band.now net.now layout.now.tracks listed) }
{
    let columns = layout.homes.columns.as_slice();
    let stubs = layout.stubs.as_slice();
    let spans = layout.spans.as_slice();
    let rows = layout.tracks.row.as_slice();
    let mut segments = Vec::new(alloc);
    push_segments(&mut segments, band.index, spans, rows)?;
    let mut lines = Vec::new(alloc);
    push_lines(&mut lines, net, band.index, columns, stubs)?;
    let mut marks = Vec::new(alloc);
    push_marks(
        alloc,
        &mut marks,
        net,
        band.index,
        columns,
        stubs,
        &layout.tracks,
    )?;
    Ok(Added {
        segments,
        lines,
        marks,
    })
}
