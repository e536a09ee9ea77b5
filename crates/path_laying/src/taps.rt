//! The taps in the band of the control.

ghost use Rattle.std.specs.Prelude.{◌≡◌, ◌<◌, ◌+◌, ◌^◌, ◌++◌, All, OnOk, length, map, slice_index};
ghost use Rattle.band_lists.specs.Listed.{AreRows};
ghost use Rattle.path_laying.specs.Tapped.{phase_taps, tap_mark};

use array_form::Tap;
use band_lists::lists::Column;
use band_lists::marks::mark;
use fabric::Mark;
use std::alloc::AllocError;
use tile_cells::Tile;
use track_assign::Tracks;

// The tap of a segment in a column.
fn tapped(tracks: &Tracks, segment: u32, column: u32) -> Mark
    requires there { segment < length tracks.now.row }
    requires rows { AreRows tracks.now (length tracks.now.row) }
    ensures { result ≡ tap_mark (slice_index tracks.now.row) segment column }
{
    let column = Column {
        band: 0,
        number: column,
    };
    mark(Tile::TapL, tracks, segment, column)
}

/// The taps of the phases.
pub(crate) fn push_phases(
    marks: &mut Vec<Mark>,
    nets: u32,
    tracks: &Tracks,
) -> Result<(), AllocError>
    requires few { nets < 2 ^ 24 }
    requires rows { AreRows tracks.now (nets + 3) }
    ensures { OnOk result (marks.new.items ≡ marks.old.items ++ phase_taps nets (slice_index tracks.now.row)) }
{
    marks.push(tapped(tracks, nets, 1))?;
    marks.push(tapped(tracks, nets + 1, 2))?;
    marks.push(tapped(tracks, nets + 2, 3))?;
    Ok(())
}

/// The taps of nets that are joined to slices.
pub(crate) fn push_taps(
    marks: &mut Vec<Mark>,
    taps: &[Tap],
    tracks: &Tracks,
) -> Result<(), AllocError>
    requires rows { AreRows tracks.now (length tracks.now.row) }
    requires nets { All (λ t. t.net.0 < length tracks.now.row) taps.now }
    ensures { OnOk result (marks.new.items
        ≡ marks.old.items ++ map (λ t. tap_mark (slice_index tracks.now.row) t.net.0 t.column) taps.now) }
{
    for tap in taps {
        marks.push(tapped(tracks, tap.net.0, tap.column))?;
    }
    Ok(())
}
