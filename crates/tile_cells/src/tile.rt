//! Tiles, and what they draw.

ghost use Rattle.std.specs.Prelude.{◌≡◌, map};
ghost use Rattle.tile_cells.specs.Tiles.{cells, in_lambda};

use lam_geom::{Layer, Rect};

/// A tile of a fabric. A column of a fabric has a line of diffusion on its left side, and one on its right side.
#[derive(Clone, Copy, PartialEq, Eq, Debug)]
pub enum Tile {
    /// The left line is joined to the metal that crosses it.
    TapL,
    /// The right line is joined to the metal that crosses it.
    TapR,
    /// A transistor between the two lines, with the metal that crosses them as its gate.
    Tran,
    /// The pull-up on top of the left line.
    PullUp,
    /// A row's metal goes on under the ground trunk.
    Under,
}

// A layer, and the lower left and the upper right corner.
macro_rules! cell {
    ($layer:ident $x0:literal $y0:literal $x1:literal $y1:literal) => {
        Rect {
            layer: Layer::$layer,
            x0: $x0,
            y0: $y0,
            x1: $x1,
            y1: $y1,
        }
    };
}

/// What a tile draws, in lambda from its lower left corner.
pub fn rects(tile: Tile) -> &'static [Rect]
    ensures { result.now ≡ map in_lambda (cells tile) }
{
    match tile {
        Tile::TapL => &[cell!(NC 3 7 5 9)],
        Tile::TapR => &[cell!(NC 15 7 17 9)],
        Tile::Tran => &[
            cell!(ND 6 2 14 4),
            cell!(NP 9 0 11 6),
            cell!(NP 8 6 12 10),
            cell!(NC 9 7 11 9),
        ],
        Tile::PullUp => &[
            cell!(ND 2 0 6 6),
            cell!(NC 3 3 5 5),
            cell!(NM 2 2 12 6),
            cell!(NP 8 2 12 8),
            cell!(NC 9 3 11 5),
            cell!(NP 1 8 12 24),
            cell!(ND 3 6 5 27),
            cell!(ND 2 27 6 31),
            cell!(NC 3 28 5 30),
            cell!(NI 1 6 7 26),
        ],
        Tile::Under => &[
            cell!(NM 0 6 4 10),
            cell!(NM 16 6 20 10),
            cell!(NP 0 6 20 10),
            cell!(NC 1 7 3 9),
            cell!(NC 17 7 19 9),
        ],
    }
}
