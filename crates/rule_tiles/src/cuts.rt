//! Contact cuts.

ghost use Rattle.std.specs.Prelude.{◌≡◌, ◌↔◌, ◌+ℤ◌, All, IfOk, length, pos, true};
ghost use Rattle.lam_geom.specs.declared.layer.Layer.TheVariants.{NC};
ghost use Rattle.lam_geom.specs.Moves.{IsNearRect};
ghost use Rattle.lam_geom.specs.Squares.{covered};
ghost use Rattle.lam_geom.specs.Rules.{IsOddCut, IsBareCut};
ghost use Rattle.mask_runs.specs.declared.mask.Mask.TheVariants.{Only};
ghost use Rattle.mask_tiles.specs.Tiles.{AreTiles, AreWhole};
ghost use Rattle.mask_tiles.specs.Touching.{AreTouching};
ghost use Rattle.rule_tiles.specs.First.{IsFirst};
ghost use Rattle.rule_tiles.specs.Cuts.{IsCutSize, IsUnsizedAt, IsOddAt, AreFlags, IsFirstFlag, low_square};

use crate::blocks::{bare_flags, corners};
use lam_geom::laws::rectangles_are_joined;
use lam_geom::{Layer, Point, Rect};
use mask_runs::Mask;
use mp_base::{List, NoMemory};
use region_sweep::{Pair, Tile, sweep};
use std::alloc::Global;

// The tiles of the contact cuts, and for each whether its cut isn't a block of two lambda.
#[derive(Drop)]
struct Cuts {
    tiles: List<Tile>,
    odd: List<bool>,
}

/// The first square of a contact cut whose region isn't a block of two lambda.
pub fn first_odd_cut(alloc: Global, shapes: &[Rect]) -> Result<Option<Point>, NoMemory>
    ensures { IfOk result (IsFirst (IsOddCut (covered shapes.now))) }
{
    rectangles_are_joined();
    let cuts = cuts_of(alloc, shapes)?;
    Ok(first_flagged(cuts.tiles.as_slice(), cuts.odd.as_slice()))
}

/// The first square of a contact cut that is a block of two lambda, and that metal doesn't surround by a lambda, or
/// neither polysilicon nor diffusion does.
pub fn first_bare_cut(alloc: Global, shapes: &[Rect]) -> Result<Option<Point>, NoMemory>
    requires { All IsNearRect shapes.now }
    ensures { IfOk result (IsFirst (IsBareCut (covered shapes.now))) }
{
    rectangles_are_joined();
    let cuts = cuts_of(alloc, shapes)?;
    let corners = corners(alloc, cuts.tiles.as_slice())?;
    let bare = bare_flags(alloc, shapes, corners.as_slice(), cuts.odd.as_slice())?;
    Ok(first_flagged(cuts.tiles.as_slice(), bare.as_slice()))
}

fn cuts_of(alloc: Global, shapes: &[Rect]) -> Result<Cuts, NoMemory>
    ensures tiles { IfOk result (λ c. AreTiles shapes.now (Only NC) c.tiles) }
    ensures whole { IfOk result (λ c. AreWhole shapes.now (Only NC) c.tiles) }
    ensures odd { IfOk result (λ c. AreFlags (IsOddAt c.tiles) (length c.tiles) c.odd) }
{
    let swept = sweep(alloc, shapes, Mask::Only(Layer::NC), &[])?;
    let odd = odd_flags(alloc, swept.tiles.as_slice(), swept.pairs.as_slice())?;
    Ok(Cuts {
        tiles: swept.tiles,
        odd,
    })
}

// Which tiles are of another size or touch another.
fn odd_flags(alloc: Global, tiles: &[Tile], pairs: &[Pair]) -> Result<List<bool>, NoMemory>
    requires { AreTouching tiles.now pairs.now }
    ensures { IfOk result (AreFlags (IsOddAt tiles.now) (length tiles.now)) }
{
    let mut odd = odd_sizes(alloc, tiles)?;
    for pair in pairs {
        odd.put(pair.a as usize, true);
        odd.put(pair.b as usize, true);
    }
    Ok(odd)
}

fn odd_sizes(alloc: Global, tiles: &[Tile]) -> Result<List<bool>, NoMemory>
    ensures { IfOk result (AreFlags (IsUnsizedAt tiles.now) (length tiles.now)) }
{
    let mut odd = List::new(alloc);
    for tile in tiles {
        odd.push(!is_cut_size(tile))?;
    }
    Ok(odd)
}

fn is_cut_size(tile: &Tile) -> bool
    ensures { (result ≡ true) ↔ IsCutSize tile.now }
{
    is_cut_side(tile.x0, tile.x1) && is_cut_side(tile.y0, tile.y1)
}

fn is_cut_side(from: i64, to: i64) -> bool
    ensures { (result ≡ true) ↔ (to ≡ from +ℤ pos 1000) }
{
    let end = i128::from(from) + 1000;
    let to = i128::from(to);
    end <= to && to <= end
}

// The first square of the first tile whose flag is set.
fn first_flagged(tiles: &[Tile], flags: &[bool]) -> Option<Point>
    requires { length flags.now ≡ length tiles.now }
    ensures { IsFirstFlag tiles.now flags.now result }
{
    for (index, tile) in tiles.iter().enumerate() {
        if flags[index] {
            return Some(low_square(tile));
        }
    }
    None
}

fn low_square(tile: &Tile) -> Point
    ensures { result ≡ low_square tile.now }
{
    Point {
        x: tile.x0,
        y: tile.y0,
    }
}
