//! The squares beside channels.

ghost use Rattle.std.specs.Prelude.{◌≡◌, ◌↔◌, All, IfOk, IsTrue, OnOk, true};
ghost use Rattle.rule_rows.specs.Closed.{AddsCross, AreCrosses, IsInner, across_of, along_of};

use lam_geom::{Layer, Rect};
use mp_base::{List, NoMemory};
use region_sweep::Tile;
use std::alloc::{AllocError, Global};

const END: i64 = 4_398_046_511_104;

/// Draws channels with the squares beside them.
pub(crate) fn crosses(alloc: Global, tiles: &[Tile]) -> Result<List<Rect>, NoMemory>
    requires { All IsInner tiles.now }
    ensures { IfOk result (AreCrosses tiles.now) }
{
    let mut rects = List::new(alloc);
    for tile in tiles {
        add_cross(&mut rects, tile)?;
    }
    Ok(rects)
}

fn add_cross(rects: &mut List<Rect>, tile: &Tile) -> Result<(), AllocError>
    requires { IsInner tile.now }
    ensures { OnOk result (AddsCross tile.now rects.old rects.new) }
{
    if tile.colour == 2 {
        rects.push(across(tile))?;
        rects.push(along(tile))?;
    }
    Ok(())
}

fn across(tile: &Tile) -> Rect
    requires { IsInner tile.now }
    ensures { result ≡ across_of tile.now }
{
    Rect {
        layer: Layer::ND,
        x0: tile.x0 - 1,
        y0: tile.y0,
        x1: tile.x1 + 1,
        y1: tile.y1,
    }
}

fn along(tile: &Tile) -> Rect
    requires { IsInner tile.now }
    ensures { result ≡ along_of tile.now }
{
    Rect {
        layer: Layer::ND,
        x0: tile.x0,
        y0: tile.y0 - 1,
        x1: tile.x1,
        y1: tile.y1 + 1,
    }
}

/// Whether the tiles keep off the ends of the plane.
pub(crate) fn are_inner(tiles: &[Tile]) -> bool
    ensures { result ≡ true → All IsInner tiles.now }
{
    tiles.iter().all(|tile| is_inner(tile))
}

fn is_inner(tile: &Tile) -> bool
    ensures { IsTrue result ↔ IsInner tile.now }
{
    -END <= tile.x0 && tile.x1 <= END && -END <= tile.y0 && tile.y1 <= END
}
