//! The strips of a layer.

ghost use Rattle.std.specs.Prelude.{◌≡◌, OnOk};
ghost use Rattle.layer_strips.specs.Layers.{rect_of, AddsLayer};

use lam_geom::{Layer, Rect};
use mask_runs::Mask;
use mp_base::{List, NoMemory};
use region_sweep::{Tile, sweep};
use std::alloc::Global;

/// Adds the strips of a layer.
pub(crate) fn add_layer(
    alloc: Global,
    shapes: &[Rect],
    layer: Layer,
    strips: &mut List<Rect>,
) -> Result<(), NoMemory>
    ensures { OnOk result (AddsLayer shapes.now layer strips.old strips.new) }
{
    let swept = sweep(alloc, shapes, Mask::Only(layer), &[])?;
    for tile in swept.tiles.as_slice() {
        strips.push(strip(layer, tile))?;
    }
    Ok(())
}

fn strip(layer: Layer, tile: &Tile) -> Rect
    ensures { result ≡ rect_of layer tile.now }
{
    Rect {
        layer,
        x0: tile.x0,
        y0: tile.y0,
        x1: tile.x1,
        y1: tile.y1,
    }
}
