//! The lines that join the bands of a path.

ghost use Rattle.std.specs.Prelude.{◌≡◌, ◌<◌, ◌≤◌, ◌==◌, ◌+◌, ◌^◌, [], ◌∷◌, ◌++◌, OnOk, cond, length, not};
ghost use Rattle.std.specs.Prelude.{slice_get, suc};
ghost use Rattle.std.specs.Prelude.{flat_map, map, max, min};
ghost use Rattle.nor_net.specs.declared.net.Phase.TheVariants.{A, B, C};
ghost use Rattle.array_form.specs.Lists.{upright};
ghost use Rattle.fabric.specs.declared.thing.Side.TheVariants as side;
ghost use Rattle.slice_form.specs.Joints.{bit_lines, joint_lines, lift_lines, trunk_line};
ghost use Rattle.slice_form.specs.PathLists.{bands_of};
ghost use Rattle.slice_form.specs.PathWires as wires;
ghost use Rattle.slice_form.specs.Slices.{across_of};
ghost use Rattle.slice_form.specs.Whole.{path_of};
ghost use Rattle.slice_joints.specs.Joining.{bit_joints, cast_joints, chain_joints, lift_joints, stub_joint};
ghost use Rattle.slice_joints.specs.Joining.{trunk_joints};
ghost use Rattle.slice_layout.specs.Layouts.{AreSliceHomes};
ghost use Rattle.std.specs.List.{range_with_len};

use band_lists::homes::Homes;
use fabric::{Line, Side};
use path_form::DataPath;
use slice_layout::looking::{
    cast_column, casts, chains, home_of, lift_at, lift_column, lifts, link_at, program_at, programs,
};
use std::alloc::AllocError;

// A line through bands.
fn line(column: u32, side: Side, first_band: u32, last_band: u32) -> Line
    ensures { result ≡ upright column side first_band last_band }
{
    Line {
        column,
        side,
        first_band,
        last_band,
    }
}

/// A chain's lines take turns between the sides of its column.
#[tactic(auto, using(crate::proofs::Sides::even_side, crate::proofs::Sides::odd_side))]
pub(crate) fn side_of(gap: u32) -> Side
    ensures { result ≡ wires.side_of gap }
{
    if gap % 2 == 0 { Side::R } else { Side::L }
}

// The lines of the phases go through all bands.
fn push_trunks(lines: &mut Vec<Line>, path: &DataPath) -> Result<(), AllocError>
    ensures { OnOk result (lines.new.items ≡ lines.old.items ++ trunk_joints (path_of path.now)) }
{
    lines.push(line(1, Side::L, 0, path.width as u32))?;
    lines.push(line(2, Side::L, 0, path.width as u32))?;
    lines.push(line(3, Side::L, 0, path.width as u32))?;
    Ok(())
}

// And so do those of casts.
fn push_casts(lines: &mut Vec<Line>, path: &DataPath) -> Result<(), AllocError>
    ensures { OnOk result (lines.new.items ≡ lines.old.items ++ cast_joints (path_of path.now)) }
{
    for i in 0..casts(path) {
        lines.push(line(cast_column(path, i), Side::L, 0, path.width as u32))?;
    }
    Ok(())
}

// Whether the band is not that of the slice.
pub(crate) fn is_other(band: u32, slice: u32) -> bool
    requires { slice < 2 ^ 16 }
    ensures { result ≡ not (band == suc slice) }
{
    band != slice + 1
}

fn push_if(lines: &mut Vec<Line>, line: Line, is_there: bool) -> Result<(), AllocError>
    ensures { OnOk result (lines.new.items ≡ lines.old.items ++ cond is_there (line ∷ []) []) }
{
    if is_there {
        lines.push(line)?;
    }
    Ok(())
}

// In the other slices a lifted net has a line of its own.
fn push_stub(lines: &mut Vec<Line>, column: u32, slice: u32, band: u32) -> Result<(), AllocError>
    requires { slice < 2 ^ 16 }
    ensures { OnOk result (lines.new.items ≡ lines.old.items ++ stub_joint column slice band) }
{
    let stub = line(column, Side::R, band, band);
    let is_there = is_other(band, slice);
    push_if(lines, stub, is_there)?;
    Ok(())
}

// A lift's line goes from the control to its slice.
fn push_lift(lines: &mut Vec<Line>, path: &DataPath, i: usize) -> Result<(), AllocError>
    requires { i < length (path_of path.now).lifts }
    ensures { OnOk result (lines.new.items
        ≡ lines.old.items ++ lift_lines (path_of path.now) i (slice_get (path_of path.now).lifts i)) }
{
    let slice = lift_at(path, i).slice as u32;
    let column = lift_column(path, i);
    lines.push(line(column, Side::L, 0, slice + 1))?;
    for k in 0..path.width as u32 {
        push_stub(lines, column, slice, k + 1)?;
    }
    Ok(())
}

fn push_lifts(lines: &mut Vec<Line>, path: &DataPath) -> Result<(), AllocError>
    ensures { OnOk result (lines.new.items ≡ lines.old.items ++ lift_joints (path_of path.now)) }
{
    for i in 0..lifts(path) {
        push_lift(lines, path, i)?;
    }
    Ok(())
}

// A programmed net has two lines in each slice.
fn push_bit(
    lines: &mut Vec<Line>,
    path: &DataPath,
    homes: &Homes,
    i: usize,
) -> Result<(), AllocError>
    requires there { i < length (path_of path.now).programs }
    requires homes { AreSliceHomes (path_of path.now) homes.now }
    ensures { OnOk result (lines.new.items
        ≡ lines.old.items ++ bit_lines (path_of path.now) (slice_get (path_of path.now).programs i)) }
{
    let column = home_of(path, homes, program_at(path, i).net.0);
    for k in 0..path.width as u32 {
        lines.push(line(column, Side::L, k + 1, k + 1))?;
        lines.push(line(column, Side::R, k + 1, k + 1))?;
    }
    Ok(())
}

fn push_bits(lines: &mut Vec<Line>, path: &DataPath, homes: &Homes) -> Result<(), AllocError>
    requires { AreSliceHomes (path_of path.now) homes.now }
    ensures { OnOk result (lines.new.items ≡ lines.old.items ++ bit_joints (path_of path.now)) }
{
    for i in 0..programs(path) {
        push_bit(lines, path, homes, i)?;
    }
    Ok(())
}

// A chain has a line in each gap between slices, and at both ends.
fn push_chain(
    lines: &mut Vec<Line>,
    path: &DataPath,
    homes: &Homes,
    i: usize,
) -> Result<(), AllocError>
    requires there { i < length (path_of path.now).chains }
    requires homes { AreSliceHomes (path_of path.now) homes.now }
    ensures { OnOk result (lines.new.items ≡ lines.old.items
        ++ map (λ g. across_of (path_of path.now) (wires.chain_line i g)) (bands_of (path_of path.now))) }
{
    let column = home_of(path, homes, link_at(path, i).to);
    let width = path.width as u32;
    for gap in 0..width + 1 {
        lines.push(line(column, side_of(gap), gap.max(1), (gap + 1).min(width)))?;
    }
    Ok(())
}

fn push_chains(lines: &mut Vec<Line>, path: &DataPath, homes: &Homes) -> Result<(), AllocError>
    requires { AreSliceHomes (path_of path.now) homes.now }
    ensures { OnOk result (lines.new.items ≡ lines.old.items ++ chain_joints (path_of path.now)) }
{
    for i in 0..chains(path) {
        push_chain(lines, path, homes, i)?;
    }
    Ok(())
}

/// Adds the lines that join bands: of phases, casts, lifts, programmed nets and chains.
pub fn push_joints(lines: &mut Vec<Line>, path: &DataPath, homes: &Homes) -> Result<(), AllocError>
    requires { AreSliceHomes (path_of path.now) homes.now }
    ensures { OnOk result (lines.new.items ≡ lines.old.items ++ joint_lines (path_of path.now)) }
{
    push_trunks(lines, path)?;
    push_casts(lines, path)?;
    push_lifts(lines, path)?;
    push_bits(lines, path, homes)?;
    push_chains(lines, path, homes)?;
    Ok(())
}
