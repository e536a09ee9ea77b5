//! `measure_slices` and `place_slices`.

ghost use Rattle.std.specs.Prelude.{◌≡◌, ◌+◌, ◌++◌, ◌<◌, ℕ, IfOk, OnOk, replicate, slice_index, suc, take};
ghost use Rattle.std.specs.List.{range_with_len};
ghost use Rattle.fabric.specs.Room.{IsKept};
ghost use Rattle.slice_form.specs.Whole.{path_of};
ghost use Rattle.slice_form.specs.PathLists.{slices_of};
ghost use Rattle.slice_laying.specs.Added.{joint_marks, slice_lines, slice_marks, slice_segments, with_slices};
ghost use Rattle.slice_form.specs.Joints.{joint_lines};
ghost use Rattle.slice_layout.specs.Layouts.{IsPacked, IsSliceLayout};
ghost use Rattle.slice_place.specs.Placed.{AreSlicesPlaced, AreListed, AreToldBy, HasSlicesSpace, IsSliceSize};
ghost use Rattle.slice_place.specs.Placed.{IsSlicesFitted};
ghost use Rattle.slice_place.specs.Placed.{slice_taps, told_segments};

use crate::nets::{push_lines, push_marks, push_segments};
use band_lists::lists;
use fabric::{Fabric, Line, Mark, Segment};
use mp_base::{List, NoMemory};
use path_form::DataPath;
use slice_joints::joints::push_joints;
use slice_joints::taps::push_joint_marks;
use slice_laying::laws::slices_fit;
use slice_layout::layout::{Layout, lay_out};
use slice_layout::looking::{cast_column, casts, lift_column, lifts};
use std::alloc::{AllocError, Global};
use track_assign::Tracks;

/// How many columns a fabric must have for slices, and how many signal rows each of their bands; and the columns of
/// casts and then of lifts.
#[derive(Drop)]
pub struct SliceSize {
    pub columns: u32,
    pub rows: List<u32>,
    pub taps: List<u32>,
}

/// What was placed: in each slice, from the lowest, the segment of each net, and the assigned rows of nets and then of
/// phases.
#[derive(Drop)]
pub struct PlacedSlices {
    pub segments: List<List<Segment>>,
    pub groups: List<Tracks>,
}

/// Segments, lines and marks.
#[derive(Drop)]
pub(crate) struct Added {
    pub segments: Vec<Segment>,
    pub lines: Vec<Line>,
    pub marks: Vec<Mark>,
}

// The same number for each slice.
fn rows_of(alloc: Global, rows: u32, slices: u8) -> Result<List<u32>, AllocError>
    ensures { IfOk result (λ each. each ≡ replicate slices rows) }
{
    let each = vec![in alloc; rows; slices as usize]?;
    Ok(List::from_vec(each))
}

// The columns of casts and of lifts.
fn taps_of(alloc: Global, path: &DataPath) -> Result<List<u32>, AllocError>
    ensures { IfOk result (λ taps. taps ≡ slice_taps (path_of path.now)) }
{
    let mut taps = List::new(alloc);
    for cast in 0..casts(path) {
        taps.push(cast_column(path, cast))?;
    }
    for lift in 0..lifts(path) {
        taps.push(lift_column(path, lift))?;
    }
    Ok(taps)
}

/// How many columns a fabric wants for the slices of a path, and how many signal rows each of their bands. Columns 1 to
/// 3 are those of the phases; then those of casts and of lifts; then one for each gate, latch, end of a chain and
/// programmed net, and for each bit of a pad that nothing uses; the last is power's. Above the row of ground stand as
/// many rows as segments of a slice lie over one column.
///
/// # Errors
/// Want of memory.
pub fn measure_slices(alloc: Global, path: &DataPath) -> Result<SliceSize, NoMemory>
    ensures { IfOk result (λ size. IsSliceSize (path_of path.now) size) }
{
    let layout = lay_out(alloc, path)?;
    Ok(SliceSize {
        columns: layout.homes.end + 1,
        rows: rows_of(alloc, layout.tracks.rows + 1, path.width)?,
        taps: taps_of(alloc, path)?,
    })
}

// What is added for the slices.
fn listed(alloc: Global, path: &DataPath, layout: &Layout) -> Result<Added, AllocError>
    requires { IsSliceLayout (path_of path.now) layout.now }
    ensures { IfOk result (λ listed. AreListed (path_of path.now) layout.now.tracks listed) }
{
    let mut segments = Vec::new(alloc);
    push_segments(&mut segments, path, layout)?;
    let mut lines = Vec::new(alloc);
    push_lines(&mut lines, path, layout)?;
    push_joints(&mut lines, path, &layout.homes)?;
    let mut marks = Vec::new(alloc);
    push_marks(alloc, &mut marks, path, layout)?;
    push_joint_marks(&mut marks, path, &layout.homes, &layout.tracks)?;
    Ok(Added {
        segments,
        lines,
        marks,
    })
}

// Adds what is listed.
fn add(path: &DataPath, fabric: &mut Fabric, tracks: &Tracks, added: &Added) -> Result<(), NoMemory>
    requires kept { IsKept fabric.old }
    requires fitted { IsSlicesFitted fabric.old (path_of path.now) }
    requires space { HasSlicesSpace fabric.old (path_of path.now) }
    requires tracks { IsPacked (path_of path.now) tracks.now }
    requires listed { AreListed (path_of path.now) tracks.now added.now }
    ensures { OnOk result (fabric.new
        ≡ with_slices fabric.old (path_of path.now) (suc tracks.now.rows) (slice_index tracks.now.row)) }
{
    slices_fit();
    // What every net keeps.
    let _nets = path.control.len();
    let _slices = path.slices.net.len();
    fabric.add(&added.segments, &added.lines, &added.marks)?;
    Ok(())
}

// The first so many segments.
fn first_of(segments: Vec<Segment>, count: usize) -> List<Segment>
    ensures { result ≡ take count segments.items }
{
    let mut segments = segments;
    segments.truncate(count);
    List::from_vec(segments)
}

// The segments of the nets of the slice in a band.
fn segments_in(
    alloc: Global,
    path: &DataPath,
    layout: &Layout,
    band: u32,
) -> Result<List<Segment>, AllocError>
    requires { IsSliceLayout (path_of path.now) layout.now }
    ensures { IfOk result (λ told. told ≡ told_segments (path_of path.now) (slice_index layout.now.tracks.row) band) }
{
    let nets = path.slices.net.len() as usize;
    let rows = layout.tracks.row.as_slice();
    let mut segments = Vec::new(alloc);
    lists::push_segments(&mut segments, band, &layout.spans, rows)?;
    Ok(first_of(segments, nets))
}

// The same rows again.
fn copy_of(alloc: Global, tracks: &Tracks) -> Result<Tracks, AllocError>
    ensures { IfOk result (λ copy. copy ≡ tracks.now) }
{
    Ok(Tracks {
        row: List::from_vec(Vec::from_slice(alloc, tracks.row.as_slice())?),
        rows: tracks.rows,
        column: tracks.column,
    })
}

// What is told of the slices.
fn told(alloc: Global, path: &DataPath, layout: &Layout) -> Result<PlacedSlices, AllocError>
    requires { IsSliceLayout (path_of path.now) layout.now }
    ensures { IfOk result (λ placed. AreToldBy (path_of path.now) layout.now.tracks placed) }
{
    let mut segments = List::new(alloc);
    let mut groups = List::new(alloc);
    for k in 0..path.width as u32 {
        segments.push(segments_in(alloc, path, layout, k + 1)?)?;
        groups.push(copy_of(alloc, &layout.tracks)?)?;
    }
    Ok(PlacedSlices { segments, groups })
}

/// Places the slices of a path in the bands of a fabric above that of the control. Each slice has a band of its own,
/// from 1 on, in which its net stands as [`band_lists`] says. Lines of diffusion join the bands: one for each phase in
/// columns 1 to 3; one for each cast from the control through all slices; one for each lift from the control to its
/// slice; and for each chain, in the column of its end, one in each gap between slices, left and right of the column
/// in turn, of which that at the open end is tapped to ground. A programmed net is a gate without inputs whose segment
/// is tapped on the left for 1 and on the right for 0.
///
/// The taps in the band of the control are the caller's.
///
/// # Errors
/// Want of memory. Then the fabric holds a part of the slices.
pub fn place_slices(
    alloc: Global,
    path: &DataPath,
    fabric: &mut Fabric,
) -> Result<PlacedSlices, NoMemory>
    requires fitted { IsSlicesFitted fabric.old (path_of path.now) }
    requires space { HasSlicesSpace fabric.old (path_of path.now) }
    ensures { IfOk result (λ placed. AreSlicesPlaced (path_of path.now) fabric.old fabric.new placed) }
{
    // What every fabric keeps.
    fabric.conditions();
    let layout = lay_out(alloc, path)?;
    let added = listed(alloc, path, &layout)?;
    add(path, fabric, &layout.tracks, &added)?;
    let placed = told(alloc, path, &layout)?;
    Ok(placed)
}
