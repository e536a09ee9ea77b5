//! Gates that are closed all round.

ghost use Rattle.std.specs.Prelude.{◌≡◌, ℤ, All, IfOk, true};
ghost use Rattle.lam_geom.specs.Rules.{IsOpenGate};
ghost use Rattle.lam_geom.specs.Squares.{covered};
ghost use Rattle.rule_rows.specs.Closed.{AreBordered, AreDeep, IsInner, IsSwapped};
ghost use Rattle.rule_rows.specs.Copies.{IsBounded};

use crate::copies::spread;
use crate::crosses::{are_inner, crosses};
use crate::legs::have_long_legs;
use crate::side::{Reach, Side};
use lam_geom::{Layer, Rect};
use mask_runs::Mask;
use mp_base::{List, NoMemory};
use region_sweep::{Tile, sweep};
use std::alloc::Global;

/// Whether tiles show that no gate is open: where one of polysilicon alone lies beside a channel it is two lambda long,
/// and no channel borders on nothing.
pub(crate) fn are_closed(alloc: Global, shapes: &[Rect]) -> Result<bool, NoMemory>
    requires { All IsBounded shapes.now }
    ensures { IfOk result (λ closed. closed ≡ true → (x y : ℤ) → ¬ IsOpenGate (covered shapes.now) x y) }
{
    let gates = swapped(alloc, shapes)?;
    let swept = sweep(alloc, gates.as_slice(), Mask::Diffusion, &[])?;
    let tiles = swept.tiles.as_slice();
    if !have_long_legs(tiles, swept.pairs.as_slice()) || !are_inner(tiles) {
        return Ok(false);
    }
    are_bordered(alloc, shapes, tiles)
}

// The drawing with polysilicon and diffusion exchanged, and buried contacts as implant: its tiles have colour 1 where
// polysilicon is alone, 2 in channels and 3 in buried contacts.
fn swapped(alloc: Global, shapes: &[Rect]) -> Result<List<Rect>, NoMemory>
    requires { All IsBounded shapes.now }
    ensures { IfOk result (IsSwapped shapes.now) }
{
    let mut drawing = List::new(alloc);
    let here = Reach {
        side: Side::Right,
        near: 0,
        far: 0,
    };
    spread(&mut drawing, shapes, Layer::NP, Layer::ND, here)?;
    spread(&mut drawing, shapes, Layer::ND, Layer::NP, here)?;
    spread(&mut drawing, shapes, Layer::NB, Layer::NI, here)?;
    Ok(drawing)
}

// Whether each square beside a tile of channels has polysilicon or diffusion.
fn are_bordered(alloc: Global, shapes: &[Rect], tiles: &[Tile]) -> Result<bool, NoMemory>
    requires bounded { All IsBounded shapes.now }
    requires inner { All IsInner tiles.now }
    ensures { IfOk result (λ bordered. bordered ≡ true → AreBordered (covered shapes.now) tiles.now) }
{
    let mut drawing = crosses(alloc, tiles)?;
    let here = Reach {
        side: Side::Right,
        near: 0,
        far: 0,
    };
    spread(&mut drawing, shapes, Layer::NP, Layer::NP, here)?;
    spread(&mut drawing, shapes, Layer::ND, Layer::NP, here)?;
    let swept = sweep(alloc, drawing.as_slice(), Mask::Diffusion, &[])?;
    Ok(are_deep(swept.tiles.as_slice()))
}

fn are_deep(tiles: &[Tile]) -> bool
    ensures { result ≡ true → AreDeep tiles.now }
{
    tiles.iter().all(|tile| tile.colour != 1)
}
