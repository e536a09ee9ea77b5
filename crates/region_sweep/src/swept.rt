//! The sweep over the rows of a mask.

ghost use Rattle.std.specs.Prelude.{◌≡◌, ◌+◌, [], List, All, IfOk, None, length, true, false};
ghost use Rattle.std.specs.List.{AllZip};
ghost use Rattle.std.specs.List.Sorted.{IsNonDecreasingBy};
ghost use Rattle.lam_geom.specs.declared.rect.Rect.{Rect};
ghost use Rattle.mask_runs.specs.Colours.{needs};
ghost use Rattle.mask_tiles.specs.Tiles.{AreTiles, AreWhole, IsTileOf};
ghost use Rattle.mask_tiles.specs.Touching.{AreTouching};
ghost use Rattle.region_sweep.specs.Grid.{AreDrawn, AreBlocks, AreSpots};
ghost use Rattle.region_sweep.specs.Blocks.{AreStacked};
ghost use Rattle.mask_tiles.specs.Sweeps.{IsSweepOf};

use crate::block::Block;
use crate::grid::Grid;
use crate::rows::sweep_rows;
use crate::spot::Spot;
use lam_geom::{Point, Rect};
use mask_runs::Mask;
use mask_runs::laws::{blank_without_needed, colours_by_layers};
use mask_tiles::Swept;
use mp_base::{List, NoMemory};
use std::alloc::Global;

/// Cuts the mask that these rectangles draw into tiles. A rectangle without squares draws nothing. A place names the
/// square of which it is the lower left corner. More than 2^31 different coordinates of one axis, or tiles, count as
/// want of memory. The time is that of the rectangles, tiles, pairs and places, times the logarithm of their number.
pub fn sweep(
    alloc: Global,
    shapes: &[Rect],
    mask: Mask,
    places: &[Point],
) -> Result<Swept, NoMemory>
    ensures tiles { IfOk result (λ s. AreTiles shapes.now mask s.tiles) }
    ensures whole { IfOk result (λ s. AreWhole shapes.now mask s.tiles) }
    ensures pairs { IfOk result (λ s. AreTouching s.tiles s.pairs) }
    ensures found { IfOk result (λ s. AllZip (IsTileOf shapes.now mask s.tiles) places.now s.found) }
{
    blank_without_needed();
    if is_blank(shapes, mask) {
        return blank(alloc, places);
    }
    let grid = Grid::new(alloc, shapes, mask)?;
    sweep_grid(alloc, shapes, mask, places, &grid)
}

// Sweeps a grid that the rectangles draw.
fn sweep_grid(
    alloc: Global,
    shapes: &[Rect],
    mask: Mask,
    places: &[Point],
    grid: &Grid,
) -> Result<Swept, NoMemory>
    requires { AreDrawn grid.now.columns.marks.items grid.now.rows.marks.items mask shapes.now }
    ensures { IfOk result (λ s. IsSweepOf shapes.now mask places.now s) }
{
    let blocks = grid.blocks(alloc, shapes, mask)?;
    let spots = grid.spots(alloc, places)?;
    sweep_blocks(
        alloc,
        mask,
        grid,
        blocks.as_slice(),
        spots.as_slice(),
        places,
    )
}

// Sweeps the blocks of rectangles for the spots of places.
fn sweep_blocks(
    alloc: Global,
    mask: Mask,
    grid: &Grid,
    blocks: &[Block],
    spots: &[Spot],
    places: &[Point],
) -> Result<Swept, NoMemory>
    requires stacked { AreStacked mask (length grid.now.columns.marks.items + 1)
        (length grid.now.rows.marks.items + 1) blocks.now }
    requires spots { AreSpots grid.now.columns.marks.items grid.now.rows.marks.items places.now spots.now }
    requires ascending { IsNonDecreasingBy (λ s. s.row) spots.now }
    ensures { IfOk result (λ s. (shapes : List Rect)
        → AreDrawn grid.now.columns.marks.items grid.now.rows.marks.items mask shapes
        → AreBlocks grid.now.columns.marks.items grid.now.rows.marks.items mask shapes blocks.now
        → IsSweepOf shapes mask places.now s) }
{
    colours_by_layers();
    let mut found = vec![in alloc; None; places.len()]?;
    let swept = sweep_rows(
        alloc,
        mask,
        grid.size(),
        blocks,
        spots,
        found.as_mut_slice(),
    )?;
    let tiles = grid.tiles(alloc, swept.strips.as_slice())?;
    Ok(Swept {
        tiles,
        pairs: List::from_vec(swept.pairs),
        found: List::from_vec(found),
    })
}

// Whether no rectangle has a layer that the mask needs, so that there is nothing to sweep.
fn is_blank(shapes: &[Rect], mask: Mask) -> bool
    ensures { result ≡ true → All (λ r. needs mask r.layer ≡ false) shapes.now }
{
    !shapes.iter().any(|shape| mask.needs(shape.layer))
}

// What a sweep finds where no square has a colour.
fn blank(alloc: Global, places: &[Point]) -> Result<Swept, NoMemory>
    ensures tiles { IfOk result (λ s. s.tiles ≡ []) }
    ensures pairs { IfOk result (λ s. s.pairs ≡ []) }
    ensures found { IfOk result (λ s. AllZip (λ _ f. f ≡ None) places.now s.found) }
{
    let found = vec![in alloc; None; places.len()]?;
    Ok(Swept {
        tiles: List::new(alloc),
        pairs: List::new(alloc),
        found: List::from_vec(found),
    })
}
