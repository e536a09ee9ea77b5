//! The sweeps of the masks of contacts and conductors.

ghost use Rattle.std.specs.Prelude.{◌++◌, IfOk, map};
ghost use Rattle.lam_geom.specs.declared.layer.Layer.TheVariants.{NM, NP};
ghost use Rattle.mask_runs.specs.declared.mask.Mask.TheVariants.{Only, Diffusion};
ghost use Rattle.mask_pieces.specs.Columns.{corner_point};
ghost use Rattle.mask_pieces.specs.Masks.{AreMasks, asked};
ghost use Rattle.mask_tiles.specs.Sweeps.{IsSweepOf};

use crate::spots::spots;
use lam_geom::{Layer, Point, Rect};
use mask_pieces::Masks;
use mask_runs::Mask;
use mask_tiles::{Swept, Tile};
use mp_base::NoMemory;
use region_sweep::sweep;
use std::alloc::Global;

pub(crate) fn sweep_masks(
    alloc: Global,
    shapes: &[Rect],
    places: &[Point],
) -> Result<Masks, NoMemory>
    ensures { IfOk result (λ m. AreMasks shapes.now places.now m.contacts m.metal m.polysilicon m.diffusion) }
{
    let contacts = sweep(alloc, shapes, Mask::Contacts, &[])?;
    let first = contacts.tiles.as_slice();
    let (metal, diffusion) = sweep_both(alloc, shapes, first, places)?;
    let last = diffusion.tiles.as_slice();
    let polysilicon = sweep_polysilicon(alloc, shapes, first, places, last)?;
    Ok(Masks {
        contacts,
        metal,
        polysilicon,
        diffusion,
    })
}

// The sweeps of metal and diffusion, both asked for the first squares of some tiles and for these places.
fn sweep_both(
    alloc: Global,
    shapes: &[Rect],
    first: &[Tile],
    places: &[Point],
) -> Result<(Swept, Swept), NoMemory>
    ensures metal { IfOk result (λ m. IsSweepOf shapes.now (Only NM) (asked first.now places.now) m.0) }
    ensures diffusion { IfOk result (λ m. IsSweepOf shapes.now Diffusion (asked first.now places.now) m.1) }
{
    let asked = spots(alloc, first, places, &[])?;
    sweep_asked(alloc, shapes, asked.as_slice())
}

fn sweep_asked(alloc: Global, shapes: &[Rect], asked: &[Point]) -> Result<(Swept, Swept), NoMemory>
    ensures metal { IfOk result (λ m. IsSweepOf shapes.now (Only NM) asked.now m.0) }
    ensures diffusion { IfOk result (λ m. IsSweepOf shapes.now Diffusion asked.now m.1) }
{
    let metal = sweep(alloc, shapes, Mask::Only(Layer::NM), asked)?;
    let diffusion = sweep(alloc, shapes, Mask::Diffusion, asked)?;
    Ok((metal, diffusion))
}

// The sweep of polysilicon, asked for the first squares of the contacts, these places, and the first squares of other
// tiles.
fn sweep_polysilicon(
    alloc: Global,
    shapes: &[Rect],
    first: &[Tile],
    places: &[Point],
    last: &[Tile],
) -> Result<Swept, NoMemory>
    ensures { IfOk result (IsSweepOf shapes.now (Only NP) (asked first.now places.now ++ map corner_point last.now)) }
{
    let asked = spots(alloc, first, places, last)?;
    sweep(alloc, shapes, Mask::Only(Layer::NP), asked.as_slice())
}
