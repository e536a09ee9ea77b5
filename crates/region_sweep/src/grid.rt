//! The grid of a mask.

ghost use Rattle.std.specs.Prelude.{◌≡◌, ◌+◌, ◌∷◌, ◌++◌, [], All, map, IfOk, OnOk, length};
ghost use Rattle.region_sweep.specs.Grid.{block_of, spot_of, tile_of, IsFit, AreDrawn, AreBlocks, AreSpots};
ghost use Rattle.region_sweep.specs.Blocks.{AreStacked};
ghost use Rattle.std.specs.List.Sorted.{IsNonDecreasingBy};

use crate::axis::Axis;
use crate::block::Block;
use crate::rows::Size;
use crate::spot::Spot;
use lam_geom::{Point, Rect};
use mask_runs::Mask;
use mask_tiles::Tile;
use mp_base::{List, NoMemory};
use std::alloc::Global;
use strip_rows::Strip;

/// The columns and rows of cells between the sides of rectangles.
#[derive(Drop)]
pub(crate) struct Grid {
    pub columns: Axis,
    pub rows: Axis,
}

impl Grid {
    /// The grid of the rectangles that the mask uses.
    pub(crate) fn new(alloc: Global, shapes: &[Rect], mask: Mask) -> Result<Grid, NoMemory>
        ensures { IfOk result (λ g. AreDrawn g.columns.marks.items g.rows.marks.items mask shapes.now) }
    {
        let mut xs = List::new(alloc);
        let mut ys = List::new(alloc);
        for shape in shapes {
            if mask.uses(shape.layer) {
                draw(&mut xs, &mut ys, shape)?;
            }
        }
        let columns = Axis::new(alloc, xs.into_vec())?;
        let rows = Axis::new(alloc, ys.into_vec())?;
        Ok(Grid { columns, rows })
    }

    /// The blocks of the rectangles that the mask uses, lowest rows first.
    pub(crate) fn blocks(
        &self,
        alloc: Global,
        shapes: &[Rect],
        mask: Mask,
    ) -> Result<Vec<Block>, NoMemory>
        requires { AreDrawn self.now.columns.marks.items self.now.rows.marks.items mask shapes.now }
        ensures blocks { IfOk result
            (λ v. AreBlocks self.now.columns.marks.items self.now.rows.marks.items mask shapes.now v.items) }
        ensures stacked { IfOk result (λ v. AreStacked mask (length self.now.columns.marks.items + 1)
            (length self.now.rows.marks.items + 1) v.items) }
    {
        let mut blocks = List::new(alloc);
        for shape in shapes {
            if mask.uses(shape.layer) {
                blocks.push(self.block(shape))?;
            }
        }
        let mut blocks = blocks.into_vec();
        blocks.sort_by_key(|block| block.low)?;
        Ok(blocks)
    }

    fn block(&self, shape: &Rect) -> Block
        ensures { result ≡ block_of self.now.columns.marks.items self.now.rows.marks.items shape.now }
    {
        Block {
            layer: shape.layer,
            left: self.columns.cell(shape.x0),
            right: self.columns.cell(shape.x1),
            low: self.rows.cell(shape.y0),
            high: self.rows.cell(shape.y1),
        }
    }

    /// How many cells and rows there are.
    pub(crate) fn size(&self) -> Size
        ensures cells { result.cells ≡ length self.now.columns.marks.items + 1 }
        ensures rows { result.rows ≡ length self.now.rows.marks.items + 1 }
    {
        Size {
            cells: self.columns.cells(),
            rows: self.rows.cells(),
        }
    }

    /// The tiles of strips.
    pub(crate) fn tiles(&self, alloc: Global, strips: &[Strip]) -> Result<List<Tile>, NoMemory>
        requires { All (IsFit self.now.columns.marks.items self.now.rows.marks.items) strips.now }
        ensures { IfOk result (λ v. v
            ≡ map (tile_of self.now.columns.marks.items self.now.rows.marks.items) strips.now) }
    {
        let mut tiles = List::new(alloc);
        for strip in strips {
            tiles.push(self.tile(strip))?;
        }
        Ok(tiles)
    }

    fn tile(&self, strip: &Strip) -> Tile
        requires { IsFit self.now.columns.marks.items self.now.rows.marks.items strip.now }
        ensures { result ≡ tile_of self.now.columns.marks.items self.now.rows.marks.items strip.now }
    {
        Tile {
            x0: self.columns.start(strip.left),
            y0: self.rows.start(strip.low),
            x1: self.columns.start(strip.right),
            y1: self.rows.start(strip.high),
            colour: strip.colour,
        }
    }

    /// The spots of places, lowest rows first.
    pub(crate) fn spots(&self, alloc: Global, places: &[Point]) -> Result<Vec<Spot>, NoMemory>
        ensures spots { IfOk result
            (λ v. AreSpots self.now.columns.marks.items self.now.rows.marks.items places.now v.items) }
        ensures ascending { IfOk result (λ v. IsNonDecreasingBy (λ s. s.row) v.items) }
    {
        let mut spots = List::new(alloc);
        for (index, place) in places.iter().enumerate() {
            spots.push(self.spot(index, place))?;
        }
        let mut spots = spots.into_vec();
        spots.sort_by_key(|spot| spot.row)?;
        Ok(spots)
    }

    fn spot(&self, index: usize, place: &Point) -> Spot
        ensures { result ≡ spot_of self.now.columns.marks.items self.now.rows.marks.items index place.now }
    {
        Spot {
            row: self.rows.cell(place.y),
            cell: self.columns.cell(place.x),
            index,
        }
    }
}

// Adds the sides of a rectangle.
fn draw(xs: &mut List<i64>, ys: &mut List<i64>, shape: &Rect) -> Result<(), NoMemory>
    ensures columns { OnOk result (xs.new ≡ (xs.old ++ shape.now.x0 ∷ []) ++ shape.now.x1 ∷ []) }
    ensures rows { OnOk result (ys.new ≡ (ys.old ++ shape.now.y0 ∷ []) ++ shape.now.y1 ∷ []) }
{
    draw_sides(xs, shape.x0, shape.x1)?;
    draw_sides(ys, shape.y0, shape.y1)
}

// Adds two sides along one axis.
fn draw_sides(marks: &mut List<i64>, low: i64, high: i64) -> Result<(), NoMemory>
    ensures { OnOk result (marks.new ≡ (marks.old ++ low ∷ []) ++ high ∷ []) }
{
    marks.push(low)?;
    marks.push(high)?;
    Ok(())
}
