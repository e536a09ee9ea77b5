//! The crossings by which pads reach segments, under the trunk of ground.

ghost use Rattle.std.specs.Prelude.{◌≡◌, ◌<◌, ◌≤◌, ◌+◌, ◌^◌, ◌++◌, ◌∷◌, All, IfOk, OnOk, flat_map, length, map};
ghost use Rattle.std.specs.Prelude.{slice_index, suc};
ghost use Rattle.array_form.specs.Lists as lists;
ghost use Rattle.array_form.specs.Homes.{phase_number};
ghost use Rattle.band_lists.specs.Listed.{AreRows};
ghost use Rattle.path_laying.specs.Crossed.{crossing, crossings};
ghost use Rattle.slice_chip.specs.Unders as whole;
ghost use Rattle.slice_form.specs.PathLists.{slices_of};
ghost use Rattle.slice_form.specs.Whole.{path_of};
ghost use Rattle.slice_laying.specs.Added.{of_phases};
ghost use Rattle.tile_cells.specs.declared.tile.Tile.TheVariants.{Under};

use band_lists::lists::Column;
use band_lists::marks::mark;
use fabric::Mark;
use nor_net::NetId;
use path_form::DataPath;
use slice_layout::entries::pad_entries;
use std::alloc::{AllocError, Global};
use tile_cells::Tile;
use track_assign::Tracks;

// The crossing of a segment.
fn under(tracks: &Tracks, band: u32, segment: u32) -> Mark
    requires there { segment < length tracks.now.row }
    requires rows { AreRows tracks.now (length tracks.now.row) }
    ensures { result ≡ crossing (slice_index tracks.now.row) band segment }
{
    mark(Tile::Under, tracks, segment, Column { band, number: 0 })
}

// Those of nets.
fn push_nets(
    marks: &mut Vec<Mark>,
    tracks: &Tracks,
    band: u32,
    nets: &[NetId],
) -> Result<(), AllocError>
    requires rows { AreRows tracks.now (length tracks.now.row) }
    requires nets { All (λ i. i.0 < length tracks.now.row) nets.now }
    ensures { OnOk result (marks.new.items ≡ marks.old.items ++ crossings (slice_index tracks.now.row) band nets.now) }
{
    for net in nets {
        marks.push(under(tracks, band, net.0))?;
    }
    Ok(())
}

// Those of phases, behind so many nets.
fn push_phases(marks: &mut Vec<Mark>, tracks: &Tracks, nets: u32) -> Result<(), AllocError>
    requires few { nets < 2 ^ 24 }
    requires rows { AreRows tracks.now (nets + 3) }
    ensures { OnOk result (marks.new.items ≡ marks.old.items
        ++ of_phases (λ ph. crossing (slice_index tracks.now.row) 0 (nets + phase_number ph))) }
{
    marks.push(under(tracks, 0, nets))?;
    marks.push(under(tracks, 0, nets + 1))?;
    marks.push(under(tracks, 0, nets + 2))?;
    Ok(())
}

// Those of the control's band.
fn push_control(
    alloc: Global,
    marks: &mut Vec<Mark>,
    path: &DataPath,
    tracks: &Tracks,
) -> Result<(), AllocError>
    requires rows { AreRows tracks.now (length path.now.control + 3) }
    ensures { OnOk result (marks.new.items ≡ marks.old.items ++ (lists.mark Under 0 (suc tracks.now.rows) 0
        ∷ map (crossing (slice_index tracks.now.row) 0) (whole.led (path_of path.now) 0))) }
{
    let signals = pad_entries(alloc, path, false)?;
    marks.push(Mark {
        tile: Tile::Under,
        band: 0,
        row: tracks.rows + 1,
        column: 0,
    })?;
    push_nets(marks, tracks, 0, signals.as_slice())?;
    push_phases(marks, tracks, path.control.len())?;
    Ok(())
}

// Those of the slices.
fn push_slices(
    alloc: Global,
    marks: &mut Vec<Mark>,
    path: &DataPath,
    tracks: &Tracks,
) -> Result<(), AllocError>
    requires rows { AreRows tracks.now (length path.now.slices.net + 3) }
    ensures { OnOk result (marks.new.items ≡ marks.old.items
        ++ flat_map (λ b. map (crossing (slice_index tracks.now.row) b) (path_of path.now).west_words)
        (slices_of (path_of path.now))) }
{
    let words = pad_entries(alloc, path, true)?;
    for k in 0..path.width {
        push_nets(marks, tracks, u32::from(k) + 1, words.as_slice())?;
    }
    Ok(())
}

/// The crossings of power, of phases and of the nets of pads.
pub(crate) fn unders(
    alloc: Global,
    path: &DataPath,
    control: &Tracks,
    slices: &Tracks,
) -> Result<Vec<Mark>, AllocError>
    requires control { AreRows control.now (length path.now.control + 3) }
    requires slices { AreRows slices.now (length path.now.slices.net + 3) }
    ensures { IfOk result (λ marks. marks.items ≡ whole.unders (path_of path.now) control.now slices.now) }
{
    let mut marks = Vec::new(alloc);
    push_control(alloc, &mut marks, path, control)?;
    push_slices(alloc, &mut marks, path, slices)?;
    Ok(marks)
}
