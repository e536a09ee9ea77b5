//! Polysilicon alone that goes on from channels.

ghost use Rattle.std.specs.Prelude.{◌≡◌, true};
ghost use Rattle.mask_tiles.specs.Touching.{AreTouching};
ghost use Rattle.rule_rows.specs.Closed.{FitsLeg, HaveLongLegs, IsLongAcross, IsLongUp};

use region_sweep::{Pair, Tile};

// The colours of tiles of polysilicon alone and of channels.
const ALONE: u8 = 1;

const CHANNEL: u8 = 2;

/// Whether all tiles of polysilicon alone that touch one of channels are two lambda long that way.
pub(crate) fn have_long_legs(tiles: &[Tile], pairs: &[Pair]) -> bool
    requires { AreTouching tiles.now pairs.now }
    ensures { result ≡ true → HaveLongLegs tiles.now pairs.now }
{
    for pair in pairs {
        let first = &tiles[pair.a as usize];
        let second = &tiles[pair.b as usize];
        if !fits_leg(first, second) || !fits_leg(second, first) {
            return false;
        }
    }
    true
}

fn fits_leg(gate: &Tile, leg: &Tile) -> bool
    ensures { result ≡ true → FitsLeg gate.now leg.now }
{
    gate.colour != CHANNEL || leg.colour != ALONE || is_long_leg(gate, leg)
}

fn is_long_leg(gate: &Tile, leg: &Tile) -> bool
    ensures { result ≡ true → IsLongAcross gate.now leg.now × IsLongUp gate.now leg.now }
{
    is_long_across(gate, leg) && is_long_up(gate, leg)
}

fn is_long_across(gate: &Tile, leg: &Tile) -> bool
    ensures { result ≡ true → IsLongAcross gate.now leg.now }
{
    leg.x0 < gate.x1 && gate.x0 < leg.x1 || i128::from(leg.x0) + 1000 <= i128::from(leg.x1)
}

fn is_long_up(gate: &Tile, leg: &Tile) -> bool
    ensures { result ≡ true → IsLongUp gate.now leg.now }
{
    leg.y0 < gate.y1 && gate.y0 < leg.y1 || i128::from(leg.y0) + 1000 <= i128::from(leg.y1)
}
