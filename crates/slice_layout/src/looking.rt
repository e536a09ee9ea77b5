//! What joins the bands of a path, by number, and the columns where that stands.
#![tactic(auto, using(mp_base::proofs::Lists::length_map))]

ghost use Rattle.std.specs.Prelude.{◌≡◌, ◌<◌, ◌≤◌, ◌^◌, Some, cond, length, slice_get};
ghost use Rattle.slice_form.specs.PathWires as wires;
ghost use Rattle.slice_form.specs.Slices as slices;
ghost use Rattle.slice_form.specs.Whole.{cast_of, lift_of, path_of, programmed_of};
ghost use Rattle.array_form.specs.Homes.{home};
ghost use Rattle.slice_layout.specs.Layouts.{AreSliceHomes};
ghost use Rattle.slice_layout.specs.Links.{carry_by};

use band_lists::homes::Homes;
use organelles::{Chain, Programmed};
use path_form::{Cast, DataPath, Lift};

/// A chain, by the numbers of its nets.
#[derive(Clone, Copy)]
pub struct Link {
    pub up: bool,
    pub start: u32,
    pub to: u32,
}

impl Link {
    /// The net that is tapped to the line below each slice.
    pub fn below(self) -> u32
        ensures { result ≡ wires.below (carry_by self) }
    {
        if self.up { self.to } else { self.start }
    }

    /// The net that is tapped to the line above each slice.
    pub fn above(self) -> u32
        ensures { result ≡ wires.above (carry_by self) }
    {
        if self.up { self.start } else { self.to }
    }

    /// The gap of the line at the open end, where there are so many slices.
    pub fn open_gap(self, width: u32) -> u32
        ensures { result ≡ cond self.up 0 width }
    {
        if self.up { 0 } else { width }
    }
}

/// How many casts there are.
pub fn casts(path: &DataPath) -> usize
    ensures { result ≡ length (path_of path.now).casts }
{
    path.casts.len()
}

/// How many lifts there are.
pub fn lifts(path: &DataPath) -> usize
    ensures { result ≡ length (path_of path.now).lifts }
{
    path.lifts.len()
}

/// How many chains there are.
pub fn chains(path: &DataPath) -> usize
    ensures { result ≡ length (path_of path.now).chains }
{
    path.slices.chains.len()
}

/// How many programmed nets there are.
pub fn programs(path: &DataPath) -> usize
    ensures { result ≡ length (path_of path.now).programs }
{
    path.slices.programs.len()
}

/// Cast i.
pub fn cast_at(path: &DataPath, i: usize) -> Cast
    requires { i < length (path_of path.now).casts }
    ensures is { slice_get (path_of path.now).casts i ≡ Some (cast_of result) }
    ensures there { result.slice.0 < length path.now.slices.net }
{
    path.casts.as_slice()[i]
}

/// Lift i.
pub fn lift_at(path: &DataPath, i: usize) -> Lift
    requires { i < length (path_of path.now).lifts }
    ensures is { slice_get (path_of path.now).lifts i ≡ Some (lift_of result) }
    ensures there { result.from.0 < length path.now.slices.net }
    ensures slice { result.slice < path.now.width }
{
    path.lifts.as_slice()[i]
}

/// Chain i.
pub fn link_at(path: &DataPath, i: usize) -> Link
    requires { i < length (path_of path.now).chains }
    ensures is { slice_get (path_of path.now).chains i ≡ Some (carry_by result) }
    ensures start { result.start < length path.now.slices.net }
    ensures to { result.to < length path.now.slices.net }
{
    match path.slices.chains.as_slice()[i] {
        Chain::Up { from, to } => Link {
            up: true,
            start: from.0,
            to: to.0,
        },
        Chain::Down { from, to } => Link {
            up: false,
            start: from.0,
            to: to.0,
        },
    }
}

/// Programmed net i.
pub fn program_at(path: &DataPath, i: usize) -> Programmed
    requires { i < length (path_of path.now).programs }
    ensures is { slice_get (path_of path.now).programs i ≡ Some (programmed_of path.now.width result) }
    ensures there { result.net.0 < length path.now.slices.net }
{
    path.slices.programs.as_slice()[i]
}

/// The column of cast i.
pub fn cast_column(path: &DataPath, i: usize) -> u32
    requires { i < length (path_of path.now).casts }
    ensures { result ≡ slices.cast_column i }
{
    4 + i as u32
}

/// The column of lift i.
pub fn lift_column(path: &DataPath, i: usize) -> u32
    requires { i < length (path_of path.now).lifts }
    ensures { result ≡ slices.lift_column (path_of path.now) i }
{
    4 + casts(path) as u32 + i as u32
}

/// The first column behind the phases, casts and lifts.
pub fn base(path: &DataPath) -> u32
    ensures value { result ≡ slices.base_of (path_of path.now) }
    ensures small { result < 2 ^ 26 }
{
    4 + casts(path) as u32 + lifts(path) as u32
}

/// The column of a net of the slices, where it has one of its own.
pub fn home_of(path: &DataPath, homes: &Homes, net: u32) -> u32
    requires there { net < length path.now.slices.net }
    requires homes { AreSliceHomes (path_of path.now) homes.now }
    ensures { result ≡ home (slices.plain_slice (path_of path.now)) net }
{
    homes.columns[net as usize]
}

/// The bit of a programmed net in slice k.
pub fn bit_of(path: &DataPath, program: Programmed, k: u32) -> bool
    requires { k < path.now.width }
    ensures { slice_get (programmed_of path.now.width program).bits k ≡ Some result }
{
    // What every path keeps.
    let _width = path.width;
    (program.bits >> k) & 1 == 1
}
