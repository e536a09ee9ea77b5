//! The nets of the slices, each in its band.

ghost use Rattle.std.specs.Prelude.{◌≡◌, ◌++◌, OnOk, slice_index, suc};
ghost use Rattle.slice_form.specs.Whole.{path_of};
ghost use Rattle.slice_laying.specs.Added.{slice_lines, slice_marks, slice_segments};
ghost use Rattle.slice_layout.specs.Layouts.{IsSliceLayout};

use band_lists::{lists, marks};
use fabric::{Line, Mark, Segment};
use path_form::DataPath;
use slice_layout::layout::Layout;
use std::alloc::{AllocError, Global};

/// Adds the segments of all slices.
pub(crate) fn push_segments(
    segments: &mut Vec<Segment>,
    path: &DataPath,
    layout: &Layout,
) -> Result<(), AllocError>
    requires { IsSliceLayout (path_of path.now) layout.now }
    ensures { OnOk result (segments.new.items ≡ segments.old.items
        ++ slice_segments (path_of path.now) (slice_index layout.now.tracks.row)) }
{
    let rows = layout.tracks.row.as_slice();
    for k in 0..path.width as u32 {
        lists::push_segments(segments, k + 1, &layout.spans, rows)?;
    }
    Ok(())
}

/// Adds the lines in the columns of the nets of all slices.
pub(crate) fn push_lines(
    lines: &mut Vec<Line>,
    path: &DataPath,
    layout: &Layout,
) -> Result<(), AllocError>
    requires { IsSliceLayout (path_of path.now) layout.now }
    ensures { OnOk result (lines.new.items ≡ lines.old.items ++ slice_lines (path_of path.now)) }
{
    for k in 0..path.width as u32 {
        lists::push_lines(
            lines,
            &path.slices.net,
            k + 1,
            &layout.homes.columns,
            &layout.stubs,
        )?;
    }
    Ok(())
}

/// Adds the marks in the columns of the nets of all slices.
pub(crate) fn push_marks(
    alloc: Global,
    marks: &mut Vec<Mark>,
    path: &DataPath,
    layout: &Layout,
) -> Result<(), AllocError>
    requires { IsSliceLayout (path_of path.now) layout.now }
    ensures { OnOk result (marks.new.items ≡ marks.old.items
        ++ slice_marks (path_of path.now) (suc layout.now.tracks.rows) (slice_index layout.now.tracks.row)) }
{
    // What every net keeps.
    let _nets = path.slices.net.len();
    let (columns, stubs) = (&layout.homes.columns, &layout.stubs);
    for k in 0..path.width as u32 {
        marks::push_marks(
            alloc,
            marks,
            &path.slices.net,
            k + 1,
            columns,
            stubs,
            &layout.tracks,
        )?;
    }
    Ok(())
}
