//! The sweeps of the masks of contacts and conductors.

ghost use Rattle.std.specs.Prelude.{◌≡◌, ◌++◌, [], map, IfOk, OnOk};
ghost use Rattle.lam_geom.specs.declared.layer.Layer.TheVariants.{NM, NP};
ghost use Rattle.mask_runs.specs.declared.mask.Mask.TheVariants.{Only, Diffusion};
ghost use Rattle.mask_pieces.specs.Columns.{corner_point};
ghost use Rattle.mask_pieces.specs.Masks.{AreMasks, asked};
ghost use Rattle.mask_tiles.specs.Sweeps.{IsSweepOf};

use lam_geom::{Layer, Point, Rect};
use mask_pieces::Masks;
use mask_runs::Mask;
use mask_tiles::{Swept, Tile};
use mp_base::{List, NoMemory};
use region_sweep::sweep;
use std::alloc::Global;

/// The masks of these rectangles, where no places of labels are asked for.
pub(crate) fn sweep_masks(alloc: Global, shapes: &[Rect]) -> Result<Masks, NoMemory>
    ensures { IfOk result (λ m. AreMasks shapes.now [] m.contacts m.metal m.polysilicon m.diffusion) }
{
    let contacts = sweep(alloc, shapes, Mask::Contacts, &[])?;
    let first = contacts.tiles.as_slice();
    let (metal, diffusion) = sweep_both(alloc, shapes, first)?;
    let last = diffusion.tiles.as_slice();
    let polysilicon = sweep_polysilicon(alloc, shapes, first, last)?;
    Ok(Masks {
        contacts,
        metal,
        polysilicon,
        diffusion,
    })
}

// The sweeps of metal and diffusion, both asked for the first squares of some tiles.
fn sweep_both(alloc: Global, shapes: &[Rect], first: &[Tile]) -> Result<(Swept, Swept), NoMemory>
    ensures metal { IfOk result (λ m. IsSweepOf shapes.now (Only NM) (asked first.now []) m.0) }
    ensures diffusion { IfOk result (λ m. IsSweepOf shapes.now Diffusion (asked first.now []) m.1) }
{
    let asked = corners(alloc, first, &[])?;
    sweep_asked(alloc, shapes, asked.as_slice())
}

fn sweep_asked(alloc: Global, shapes: &[Rect], asked: &[Point]) -> Result<(Swept, Swept), NoMemory>
    ensures metal { IfOk result (λ m. IsSweepOf shapes.now (Only NM) asked.now m.0) }
    ensures diffusion { IfOk result (λ m. IsSweepOf shapes.now Diffusion asked.now m.1) }
{
    let metal = sweep(alloc, shapes, Mask::Only(Layer::NM), asked)?;
    let diffusion = sweep(alloc, shapes, Mask::Diffusion, asked)?;
    Ok((metal, diffusion))
}

// The sweep of polysilicon, asked for the first squares of the contacts and of other tiles.
fn sweep_polysilicon(
    alloc: Global,
    shapes: &[Rect],
    first: &[Tile],
    last: &[Tile],
) -> Result<Swept, NoMemory>
    ensures { IfOk result (IsSweepOf shapes.now (Only NP) (asked first.now [] ++ map corner_point last.now)) }
{
    let asked = corners(alloc, first, last)?;
    sweep(alloc, shapes, Mask::Only(Layer::NP), asked.as_slice())
}

// The first squares of some tiles, and those of others.
fn corners(alloc: Global, first: &[Tile], last: &[Tile]) -> Result<List<Point>, NoMemory>
    ensures { IfOk result (λ v. v ≡ asked first.now [] ++ map corner_point last.now) }
{
    let count = first.len() + last.len();
    let mut corners = List::from_vec(Vec::with_capacity(alloc, count)?);
    add_corners(&mut corners, first)?;
    add_corners(&mut corners, last)?;
    Ok(corners)
}

fn add_corners(corners: &mut List<Point>, tiles: &[Tile]) -> Result<(), NoMemory>
    ensures { OnOk result (corners.new ≡ corners.old ++ map corner_point tiles.now) }
{
    for tile in tiles {
        corners.push(Point {
            x: tile.x0,
            y: tile.y0,
        })?;
    }
    Ok(())
}
