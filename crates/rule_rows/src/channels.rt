//! The least square of a channel.

ghost use Rattle.std.specs.Prelude.{IfOk};
ghost use Rattle.rule_rows.specs.Channels.{IsChannel, IsFirstDeep};
ghost use Rattle.rule_rows.specs.Firsts.{IsFirstOf};

use lam_geom::{Point, Rect};
use mask_runs::Mask;
use mp_base::NoMemory;
use region_sweep::{Tile, sweep};
use std::alloc::Global;

/// The least square by y, then x, that the drawing makes a channel.
pub(crate) fn first_channel(alloc: Global, drawing: &[Rect]) -> Result<Option<Point>, NoMemory>
    ensures { IfOk result (IsFirstOf (IsChannel drawing.now)) }
{
    let swept = sweep(alloc, drawing, Mask::Diffusion, &[])?;
    Ok(first_deep(swept.tiles.as_slice()))
}

// The corner of the first tile of a colour above 1.
fn first_deep(tiles: &[Tile]) -> Option<Point>
    ensures { IsFirstDeep tiles.now result }
{
    for tile in tiles {
        if tile.colour > 1 {
            return Some(Point {
                x: tile.x0,
                y: tile.y0,
            });
        }
    }
    None
}
