//! The fabric of a data path.

ghost use Rattle.std.specs.Prelude.{◌≡◌, ◌+◌, ◌++◌, [], ◌∷◌, IfOk, OnOk, length, slice_index};
ghost use Rattle.band_lists.specs.Listed.{AreRows};
ghost use Rattle.fabric.specs.Plan.{with_added};
ghost use Rattle.slice_chip.specs.Sliced.{AreControlTracks};
ghost use Rattle.slice_chip.specs.Unders.{unders};
ghost use Rattle.slice_form.specs.Whole.{path_of};
ghost use Rattle.slice_joints.specs.Control.{IsControlBand};
ghost use Rattle.slice_laying.specs.Taps.{control_taps, with_taps};
ghost use Rattle.path_laying.specs.Laid.{IsLaid, IsSmallPath};
ghost use Rattle.path_laying.specs.Steps.{AreSlicesIn, HasControl, HasSlices, IsControlPlaced, IsEmpty};
ghost use Rattle.path_laying.specs.Steps.{IsTapped};

use crate::taps::{push_phases, push_taps};
use crate::unders::unders;
use array_form::{Band, Placed};
use fabric::{Fabric, Mark};
use mp_base::{List, NoMemory};
use path_form::DataPath;
use slice_chip::laws::{controls_leave_room, taps_fit, unders_fit};
use slice_joints::control::control_band;
use slice_joints::laws::controls_match;
use slice_laying::laws::paths_are_placeable;
use slice_place::{PlacedSlices, measure_slices, place_slices};
use std::alloc::{AllocError, Global};
use track_assign::Tracks;
use weinberger::{measure, place};

/// The fabric of a data path, and the rows that were assigned in each band, from that of the control up.
#[derive(Drop)]
pub struct Laid {
    pub fabric: Fabric,
    pub groups: List<Tracks>,
}

// The rows of the control, and those of the slices.
fn rows_of(alloc: Global, control: u32, slices: &[u32]) -> Result<List<u32>, AllocError>
    ensures { IfOk result (λ rows. rows ≡ control ∷ slices.now) }
{
    let mut rows = Vec::new(alloc);
    rows.push(control)?;
    rows.extend_from_slice(slices)?;
    Ok(List::from_vec(rows))
}

// A fabric with the columns and rows that the control and the slices want, in which nothing stands.
fn empty_fabric(alloc: Global, path: &DataPath, band: &Band) -> Result<Fabric, NoMemory>
    requires small { IsSmallPath path.now }
    requires band { IsControlBand (path_of path.now) band.now }
    ensures { IfOk result (IsEmpty (path_of path.now)) }
{
    controls_match();
    paths_are_placeable();
    // What every net keeps.
    let _nets = path.control.len();
    let _slices = path.slices.net.len();
    let control = measure(alloc, &path.control, band)?;
    let slices = measure_slices(alloc, path)?;
    let rows = rows_of(alloc, control.rows, slices.rows.as_slice())?;
    let fabric = Fabric::new(alloc, control.columns.max(slices.columns), rows)?;
    Ok(fabric)
}

// Places the control in band 0.
fn place_control(
    alloc: Global,
    path: &DataPath,
    band: &Band,
    fabric: &mut Fabric,
) -> Result<Placed, NoMemory>
    requires small { IsSmallPath path.now }
    requires band { IsControlBand (path_of path.now) band.now }
    requires empty { IsEmpty (path_of path.now) fabric.old }
    ensures { IfOk result (IsControlPlaced (path_of path.now) fabric.new) }
{
    controls_match();
    paths_are_placeable();
    // What every net keeps.
    let _nets = path.control.len();
    let _slices = path.slices.net.len();
    let placed = place(alloc, &path.control, fabric, band)?;
    Ok(placed)
}

// Places the slices above it.
fn add_slices(
    alloc: Global,
    path: &DataPath,
    fabric: &mut Fabric,
    control: &Tracks,
) -> Result<PlacedSlices, NoMemory>
    requires small { IsSmallPath path.now }
    requires control { HasControl (path_of path.now) fabric.old control.now }
    ensures { IfOk result (AreSlicesIn (path_of path.now) fabric.new control.now) }
{
    controls_leave_room();
    // What every net keeps.
    let _nets = path.control.len();
    let placed = place_slices(alloc, path, fabric)?;
    Ok(placed)
}

// The taps of the control: of the phases, of casts and of lifts.
fn taps(
    alloc: Global,
    path: &DataPath,
    band: &Band,
    tracks: &Tracks,
) -> Result<Vec<Mark>, AllocError>
    requires band { IsControlBand (path_of path.now) band.now }
    requires rows { AreRows tracks.now (length path.now.control + 3) }
    ensures { IfOk result (λ marks. marks.items ≡ control_taps (path_of path.now) (slice_index tracks.now.row)) }
{
    paths_are_placeable();
    let nets = path.control.len();
    let _slices = path.slices.net.len();
    let mut marks = Vec::new(alloc);
    push_phases(&mut marks, nets, tracks)?;
    push_taps(&mut marks, band.taps.as_slice(), tracks)?;
    Ok(marks)
}

// Adds the taps of the control.
fn add_taps(
    alloc: Global,
    path: &DataPath,
    fabric: &mut Fabric,
    band: &Band,
    control: &Tracks,
) -> Result<(), NoMemory>
    requires small { IsSmallPath path.now }
    requires band { IsControlBand (path_of path.now) band.now }
    requires rows { AreRows control.now (length path.now.control + 3) }
    requires tracks { AreControlTracks (path_of path.now) control.now }
    requires slices { HasSlices (path_of path.now) fabric.old control.now }
    ensures { OnOk result (fabric.new ≡ with_taps fabric.old (path_of path.now) (slice_index control.now.row)) }
{
    taps_fit();
    // What every net and every fabric keeps.
    let _nets = path.control.len();
    let _slices = path.slices.net.len();
    fabric.conditions();
    let marks = taps(alloc, path, band, control)?;
    fabric.add(&[], &[], &marks)?;
    Ok(())
}

// Adds the crossings by which pads reach segments.
fn add_unders(
    alloc: Global,
    path: &DataPath,
    fabric: &mut Fabric,
    control: &Tracks,
    slices: &Tracks,
) -> Result<(), NoMemory>
    requires small { IsSmallPath path.now }
    requires control { AreRows control.now (length path.now.control + 3) }
    requires slices { AreRows slices.now (length path.now.slices.net + 3) }
    requires tapped { IsTapped path.now fabric.old control.now slices.now }
    ensures { OnOk result
        (fabric.new ≡ with_added fabric.old [] [] (unders (path_of path.now) control.now slices.now)) }
{
    unders_fit();
    // What every net and every fabric keeps.
    let _nets = path.control.len();
    let _slices = path.slices.net.len();
    fabric.conditions();
    let marks = unders(alloc, path, control, slices)?;
    fabric.add(&[], &[], &marks)?;
    Ok(())
}

// The rows of the control, and then of each slice.
fn groups_of(control: Placed, slices: PlacedSlices) -> Result<List<Tracks>, AllocError>
    ensures { IfOk result (λ groups. groups ≡ control.groups ++ slices.groups) }
{
    let Placed {
        segments: _,
        groups,
    } = control;
    let mut groups = groups.into_vec();
    let PlacedSlices {
        segments: _,
        groups: above,
    } = slices;
    for tracks in above.into_vec() {
        groups.push(tracks)?;
    }
    Ok(List::from_vec(groups))
}

/// The fabric of a data path, just as wide as it wants, in which each band has as many rows as it wants: the control in
/// band 0 as a Weinberger array, each slice in a band of its own above it, and the lines that join them with their
/// taps; and the crossings by which pads reach their nets. Its switches draw the path:
/// [`sliced_chips_draw`](slice_chip::laws::sliced_chips_draw).
///
/// # Errors
///
/// `NoMemory`.
pub fn lay(alloc: Global, path: &DataPath) -> Result<Laid, NoMemory>
    requires { IsSmallPath path.now }
    ensures { IfOk result (IsLaid path.now) }
{
    let band = control_band(alloc, path)?;
    let mut fabric = empty_fabric(alloc, path, &band)?;
    let placed = place_control(alloc, path, &band, &mut fabric)?;
    let rows = placed.groups.at(0);
    let slices = add_slices(alloc, path, &mut fabric, rows)?;
    add_taps(alloc, path, &mut fabric, &band, rows)?;
    let above = slices.groups.at(0);
    add_unders(alloc, path, &mut fabric, rows, above)?;
    let groups = groups_of(placed, slices)?;
    Ok(Laid { fabric, groups })
}
