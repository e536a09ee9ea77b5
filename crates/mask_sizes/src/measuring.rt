//! The sizes of channels and nodes, from rectangles.

ghost use Rattle.std.specs.Prelude.{[], IfOk, List};
ghost use Rattle.lam_geom.specs.declared.rect.Rect.{Rect};
ghost use Rattle.mask_pieces.specs.CutOf.{IsCutOf};
ghost use Rattle.mask_pieces.specs.Masks.{AreMasks};
ghost use Rattle.mask_nodes.specs.Drawn.{AreClassedMasks};
ghost use Rattle.mask_sizes.specs.Measured.{AreSizes, IsMeasured};

use crate::masks::sweep_masks;
use crate::sums::{Measured, areas, edges};
use lam_geom::{Layer, Rect};
use mask_pieces::{Cut, Masks, cut_masks};
use mp_base::NoMemory;
use net_sizes::Sizes;
use piece_classes::{Classed, classify};
use std::alloc::Global;

/// The sizes of the channels and nodes that these rectangles draw. Of a size of 2^128 it is said that memory is wanted.
///
/// # Errors
///
/// Want of memory.
pub fn sizes_of(alloc: Global, shapes: &[Rect]) -> Result<Sizes, NoMemory>
    ensures { IfOk result (IsMeasured shapes.now) }
{
    let masks = sweep_masks(alloc, shapes)?;
    measured(alloc, shapes, &masks)
}

// The sizes, from the masks. The rectangles are those of the contract alone.
fn measured(alloc: Global, shapes: &[Rect], masks: &Masks) -> Result<Sizes, NoMemory>
    requires { AreMasks shapes.now [] masks.now.contacts masks.now.metal masks.now.polysilicon masks.now.diffusion }
    ensures { IfOk result (IsMeasured shapes.now) }
{
    let cut = cut_masks(alloc, &masks.metal, &masks.polysilicon, &masks.diffusion)?;
    let classes = classes_of(alloc, shapes, masks, &cut)?;
    sum_up(alloc, shapes, masks, &cut, &classes)
}

// The classes of the pieces of these masks. The rectangles are those of the contract alone.
fn classes_of(alloc: Global, shapes: &[Rect], masks: &Masks, cut: &Cut) -> Result<Classed, NoMemory>
    ghost drawn: { List Rect }
    requires masks { AreMasks drawn [] masks.now.contacts masks.now.metal masks.now.polysilicon masks.now.diffusion }
    requires cut { IsCutOf masks.now.metal masks.now.polysilicon masks.now.diffusion cut.now }
    ensures { IfOk result (AreClassedMasks drawn [] masks.now cut.now) }
{
    classify(alloc, masks, cut)
}

// The sizes, from the classes of pieces.
fn sum_up(
    alloc: Global,
    shapes: &[Rect],
    masks: &Masks,
    cut: &Cut,
    classes: &Classed,
) -> Result<Sizes, NoMemory>
    requires { AreClassedMasks shapes.now [] masks.now cut.now classes.now }
    ensures { IfOk result (AreSizes masks.now cut.now classes.now) }
{
    let pieces = cut.pieces.as_slice();
    let channels = classes.channels.numbers.as_slice();
    let nodes = classes.nodes.numbers.as_slice();
    let touching = masks.diffusion.pairs.as_slice();
    let numbers = cut.diffusion.numbers.as_slice();
    let of_channels = classes.channels.roots.len();
    let of_nodes = classes.nodes.roots.len();
    let metal = Measured::Conductors(Layer::NM);
    let polysilicon = Measured::Conductors(Layer::NP);
    let diffusion = Measured::Conductors(Layer::ND);
    Ok(Sizes {
        areas: areas(alloc, of_channels, Measured::Channels, pieces, channels)?,
        edges: edges(alloc, of_channels, touching, numbers, pieces, channels)?,
        metal: areas(alloc, of_nodes, metal, pieces, nodes)?,
        polysilicon: areas(alloc, of_nodes, polysilicon, pieces, nodes)?,
        diffusion: areas(alloc, of_nodes, diffusion, pieces, nodes)?,
    })
}
