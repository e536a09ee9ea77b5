//! The marks of the lines that join bands, in the bands of the slices.

ghost use Rattle.std.specs.Prelude.{◌≡◌, ◌<◌, ◌≤◌, ◌+◌, ◌^◌, [], ◌∷◌, ◌++◌, OnOk, cond, if◌then◌else◌, length};
ghost use Rattle.std.specs.Prelude.{slice_get, slice_index, suc};
ghost use Rattle.array_form.specs.Lists as form;
ghost use Rattle.slice_form.specs.Whole.{path_of, programmed_of};
ghost use Rattle.slice_laying.specs.Added.{bit_marks, cast_taps, chain_taps, joint_marks, lift_taps, trunk_taps};
ghost use Rattle.tile_cells.specs.declared.tile.Tile.TheVariants.{TapL, TapR};
ghost use Rattle.slice_joints.specs.Tapping.{bit_marks_at, cast_marks, chain_marks, lift_marks, link_marks};
ghost use Rattle.slice_joints.specs.Tapping.{open_mark};
ghost use Rattle.slice_joints.specs.Tapping.{program_marks, stub_tap, trunk_marks};
ghost use Rattle.slice_layout.specs.Layouts.{AreSliceHomes, IsPacked};
ghost use Rattle.slice_layout.specs.Links.{carry_by};

use crate::joints::{is_other, side_of};
use band_lists::homes::Homes;
use band_lists::lists::Column;
use band_lists::marks::mark;
use fabric::{Mark, Side};
use organelles::Programmed;
use path_form::{DataPath, Lift};
use slice_layout::looking::{
    Link, bit_of, cast_at, cast_column, casts, chains, home_of, lift_at, lift_column, lifts,
    link_at, program_at, programs,
};
use std::alloc::AllocError;
use tile_cells::Tile;
use track_assign::Tracks;

// The tile that taps the line on this side.
fn tap_tile(side: Side) -> Tile
    ensures { result ≡ form.tap_tile side }
{
    match side {
        Side::L => Tile::TapL,
        Side::R => Tile::TapR,
    }
}

// The mark on a segment of slice k, in a column.
fn marked(path: &DataPath, tracks: &Tracks, tile: Tile, segment: u32, column: u32, k: u32) -> Mark
    requires tracks { IsPacked (path_of path.now) tracks.now }
    requires there { segment < length path.now.slices.net + 3 }
    requires slice { k < path.now.width }
    ensures { result ≡ form.mark tile (suc k) (suc (slice_index tracks.now.row segment)) column }
{
    let column = Column {
        band: k + 1,
        number: column,
    };
    mark(tile, tracks, segment, column)
}

// A programmed net is tapped to the left for 1 and to the right for 0.
fn bit_tile(bit: bool) -> Tile
    ensures { result ≡ (if bit then TapL else TapR) }
{
    if bit { Tile::TapL } else { Tile::TapR }
}

// The phases, in the band of slice k.
fn push_slice_trunks(
    marks: &mut Vec<Mark>,
    path: &DataPath,
    tracks: &Tracks,
    k: u32,
) -> Result<(), AllocError>
    requires tracks { IsPacked (path_of path.now) tracks.now }
    requires slice { k < path.now.width }
    ensures { OnOk result (marks.new.items
        ≡ marks.old.items ++ trunk_taps (path_of path.now) (slice_index tracks.now.row) (suc k)) }
{
    let nets = path.slices.net.len();
    marks.push(marked(path, tracks, Tile::TapL, nets, 1, k))?;
    marks.push(marked(path, tracks, Tile::TapL, nets + 1, 2, k))?;
    marks.push(marked(path, tracks, Tile::TapL, nets + 2, 3, k))?;
    Ok(())
}

fn push_trunks(marks: &mut Vec<Mark>, path: &DataPath, tracks: &Tracks) -> Result<(), AllocError>
    requires { IsPacked (path_of path.now) tracks.now }
    ensures { OnOk result (marks.new.items
        ≡ marks.old.items ++ trunk_marks (path_of path.now) (slice_index tracks.now.row)) }
{
    for k in 0..path.width as u32 {
        push_slice_trunks(marks, path, tracks, k)?;
    }
    Ok(())
}

fn push_cast(
    marks: &mut Vec<Mark>,
    path: &DataPath,
    tracks: &Tracks,
    i: usize,
) -> Result<(), AllocError>
    requires there { i < length (path_of path.now).casts }
    requires tracks { IsPacked (path_of path.now) tracks.now }
    ensures { OnOk result (marks.new.items ≡ marks.old.items
        ++ cast_taps (path_of path.now) (slice_index tracks.now.row) i (slice_get (path_of path.now).casts i)) }
{
    let net = cast_at(path, i).slice.0;
    let column = cast_column(path, i);
    for k in 0..path.width as u32 {
        marks.push(marked(path, tracks, Tile::TapL, net, column, k))?;
    }
    Ok(())
}

fn push_casts(marks: &mut Vec<Mark>, path: &DataPath, tracks: &Tracks) -> Result<(), AllocError>
    requires { IsPacked (path_of path.now) tracks.now }
    ensures { OnOk result (marks.new.items
        ≡ marks.old.items ++ cast_marks (path_of path.now) (slice_index tracks.now.row)) }
{
    for i in 0..casts(path) {
        push_cast(marks, path, tracks, i)?;
    }
    Ok(())
}

fn push_if(marks: &mut Vec<Mark>, mark: Mark, is_there: bool) -> Result<(), AllocError>
    ensures { OnOk result (marks.new.items ≡ marks.old.items ++ cond is_there (mark ∷ []) []) }
{
    if is_there {
        marks.push(mark)?;
    }
    Ok(())
}

// The tap of a lifted net to its line in slice k, where it isn't lifted from that.
fn push_stub(
    marks: &mut Vec<Mark>,
    path: &DataPath,
    tracks: &Tracks,
    lift: Lift,
    column: u32,
    k: u32,
) -> Result<(), AllocError>
    requires tracks { IsPacked (path_of path.now) tracks.now }
    requires there { lift.from.0 < length path.now.slices.net }
    requires slice { k < path.now.width }
    ensures { OnOk result (marks.new.items
        ≡ marks.old.items ++ stub_tap (slice_index tracks.now.row) lift.from.0 lift.slice column (suc k)) }
{
    let stub = marked(path, tracks, Tile::TapR, lift.from.0, column, k);
    let is_there = is_other(k + 1, lift.slice as u32);
    push_if(marks, stub, is_there)?;
    Ok(())
}

fn push_lift(
    marks: &mut Vec<Mark>,
    path: &DataPath,
    tracks: &Tracks,
    i: usize,
) -> Result<(), AllocError>
    requires there { i < length (path_of path.now).lifts }
    requires tracks { IsPacked (path_of path.now) tracks.now }
    ensures { OnOk result (marks.new.items ≡ marks.old.items
        ++ lift_taps (path_of path.now) (slice_index tracks.now.row) i (slice_get (path_of path.now).lifts i)) }
{
    let lift = lift_at(path, i);
    let column = lift_column(path, i);
    let own = marked(
        path,
        tracks,
        Tile::TapL,
        lift.from.0,
        column,
        lift.slice as u32,
    );
    marks.push(own)?;
    for k in 0..path.width as u32 {
        push_stub(marks, path, tracks, lift, column, k)?;
    }
    Ok(())
}

fn push_lifts(marks: &mut Vec<Mark>, path: &DataPath, tracks: &Tracks) -> Result<(), AllocError>
    requires { IsPacked (path_of path.now) tracks.now }
    ensures { OnOk result (marks.new.items
        ≡ marks.old.items ++ lift_marks (path_of path.now) (slice_index tracks.now.row)) }
{
    for i in 0..lifts(path) {
        push_lift(marks, path, tracks, i)?;
    }
    Ok(())
}

// A programmed net in slice k: its right line is ground, its left one has a pull-up, and its bit says which is tapped.
fn push_bit(
    marks: &mut Vec<Mark>,
    path: &DataPath,
    tracks: &Tracks,
    program: Programmed,
    column: u32,
    k: u32,
) -> Result<(), AllocError>
    requires tracks { IsPacked (path_of path.now) tracks.now }
    requires there { program.net.0 < length path.now.slices.net }
    requires slice { k < path.now.width }
    ensures { OnOk result (marks.new.items ≡ marks.old.items
        ++ bit_marks_at (suc tracks.now.rows) (slice_index tracks.now.row) program.net.0 column (suc k)
        (slice_get (programmed_of path.now.width program).bits k)) }
{
    let band = k + 1;
    marks.push(Mark {
        tile: Tile::TapR,
        band,
        row: 0,
        column,
    })?;
    marks.push(Mark {
        tile: Tile::PullUp,
        band,
        row: tracks.rows + 1,
        column,
    })?;
    let tile = bit_tile(bit_of(path, program, k));
    marks.push(marked(path, tracks, tile, program.net.0, column, k))?;
    Ok(())
}

fn push_program(
    marks: &mut Vec<Mark>,
    path: &DataPath,
    homes: &Homes,
    tracks: &Tracks,
    i: usize,
) -> Result<(), AllocError>
    requires there { i < length (path_of path.now).programs }
    requires homes { AreSliceHomes (path_of path.now) homes.now }
    requires tracks { IsPacked (path_of path.now) tracks.now }
    ensures { OnOk result (marks.new.items ≡ marks.old.items
        ++ bit_marks (path_of path.now) (suc tracks.now.rows) (slice_index tracks.now.row)
        (slice_get (path_of path.now).programs i)) }
{
    let program = program_at(path, i);
    let column = home_of(path, homes, program.net.0);
    for k in 0..path.width as u32 {
        push_bit(marks, path, tracks, program, column, k)?;
    }
    Ok(())
}

fn push_programs(
    marks: &mut Vec<Mark>,
    path: &DataPath,
    homes: &Homes,
    tracks: &Tracks,
) -> Result<(), AllocError>
    requires homes { AreSliceHomes (path_of path.now) homes.now }
    requires tracks { IsPacked (path_of path.now) tracks.now }
    ensures { OnOk result (marks.new.items ≡ marks.old.items
        ++ program_marks (path_of path.now) (suc tracks.now.rows) (slice_index tracks.now.row)) }
{
    for i in 0..programs(path) {
        push_program(marks, path, homes, tracks, i)?;
    }
    Ok(())
}

// The taps of a chain in slice k: on the line below the slice, and on the line above it.
fn push_link(
    marks: &mut Vec<Mark>,
    path: &DataPath,
    tracks: &Tracks,
    link: Link,
    column: u32,
    k: u32,
) -> Result<(), AllocError>
    requires tracks { IsPacked (path_of path.now) tracks.now }
    requires start { link.start < length path.now.slices.net }
    requires to { link.to < length path.now.slices.net }
    requires slice { k < path.now.width }
    ensures { OnOk result (marks.new.items
        ≡ marks.old.items ++ link_marks (slice_index tracks.now.row) (carry_by link) column k) }
{
    marks.push(marked(path, tracks, tap_tile(side_of(k)), link.below(), column, k))?;
    marks.push(marked(
        path,
        tracks,
        tap_tile(side_of(k + 1)),
        link.above(),
        column,
        k,
    ))?;
    Ok(())
}

// The line at the open end of a chain is tapped to ground.
fn push_open_end(
    marks: &mut Vec<Mark>,
    path: &DataPath,
    link: Link,
    column: u32,
) -> Result<(), AllocError>
    ensures { OnOk result (marks.new.items ≡ marks.old.items
        ++ open_mark (path_of path.now) (carry_by link) column ∷ []) }
{
    let gap = link.open_gap(path.width as u32);
    marks.push(Mark {
        tile: tap_tile(side_of(gap)),
        band: gap.max(1),
        row: 0,
        column,
    })?;
    Ok(())
}

fn push_chain(
    marks: &mut Vec<Mark>,
    path: &DataPath,
    homes: &Homes,
    tracks: &Tracks,
    i: usize,
) -> Result<(), AllocError>
    requires there { i < length (path_of path.now).chains }
    requires homes { AreSliceHomes (path_of path.now) homes.now }
    requires tracks { IsPacked (path_of path.now) tracks.now }
    ensures { OnOk result (marks.new.items ≡ marks.old.items
        ++ chain_taps (path_of path.now) (slice_index tracks.now.row) (slice_get (path_of path.now).chains i)) }
{
    let link = link_at(path, i);
    let column = home_of(path, homes, link.to);
    push_open_end(marks, path, link, column)?;
    for k in 0..path.width as u32 {
        push_link(marks, path, tracks, link, column, k)?;
    }
    Ok(())
}

fn push_chains(
    marks: &mut Vec<Mark>,
    path: &DataPath,
    homes: &Homes,
    tracks: &Tracks,
) -> Result<(), AllocError>
    requires homes { AreSliceHomes (path_of path.now) homes.now }
    requires tracks { IsPacked (path_of path.now) tracks.now }
    ensures { OnOk result (marks.new.items ≡ marks.old.items
        ++ chain_marks (path_of path.now) (slice_index tracks.now.row)) }
{
    for i in 0..chains(path) {
        push_chain(marks, path, homes, tracks, i)?;
    }
    Ok(())
}

/// Adds the marks of the lines that join bands, in the bands of the slices.
pub fn push_joint_marks(
    marks: &mut Vec<Mark>,
    path: &DataPath,
    homes: &Homes,
    tracks: &Tracks,
) -> Result<(), AllocError>
    requires homes { AreSliceHomes (path_of path.now) homes.now }
    requires tracks { IsPacked (path_of path.now) tracks.now }
    ensures { OnOk result (marks.new.items ≡ marks.old.items
        ++ joint_marks (path_of path.now) (suc tracks.now.rows) (slice_index tracks.now.row)) }
{
    push_trunks(marks, path, tracks)?;
    push_casts(marks, path, tracks)?;
    push_lifts(marks, path, tracks)?;
    push_programs(marks, path, homes, tracks)?;
    push_chains(marks, path, homes, tracks)?;
    Ok(())
}
