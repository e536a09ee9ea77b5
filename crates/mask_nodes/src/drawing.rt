//! What a mask draws.

ghost use Rattle.std.specs.Prelude.{◌≡◌, length, IfOk, List};
ghost use Rattle.lam_geom.specs.declared.place.Point.{Point};
ghost use Rattle.lam_geom.specs.declared.rect.Rect.{Rect};
ghost use Rattle.mask_pieces.specs.Masks.{AreMasks};
ghost use Rattle.mask_pieces.specs.CutOf.{IsCutOf};
ghost use Rattle.mask_nodes.specs.Drawn.{IsDrawn, AreClassedMasks};

use crate::channels::channels;
use crate::columns::{Columns, node_columns};
use crate::masks::sweep_masks;
use lam_geom::{Point, Rect};
use mask_pieces::{Cut, Masks, cut_masks};
use mp_base::{List, NoMemory};
use piece_classes::{Classed, classify};
use std::alloc::Global;
use switch_net::Channel;

/// How many nodes a mask draws, its channels, and for each of the places that were asked for the number of the node
/// whose conductor is there, layer by layer. Nodes and channels are numbered from 0 in the order of their first
/// squares.
#[derive(Drop)]
pub struct Drawing {
    pub nodes: usize,
    pub channels: List<Channel>,
    pub metal: List<Option<u32>>,
    pub polysilicon: List<Option<u32>>,
    pub diffusion: List<Option<u32>>,
}

/// The nodes and channels that these rectangles draw (Mead and Conway, chapter 4). A place names the square of which it
/// is the lower left corner.
pub fn draw(alloc: Global, shapes: &[Rect], places: &[Point]) -> Result<Drawing, NoMemory>
    ensures { IfOk result (IsDrawn shapes.now places.now) }
{
    let masks = sweep_masks(alloc, shapes, places)?;
    drawn(alloc, shapes, places, &masks)
}

// What is drawn, from the masks. The rectangles are those of the contract alone.
fn drawn(
    alloc: Global,
    shapes: &[Rect],
    places: &[Point],
    masks: &Masks,
) -> Result<Drawing, NoMemory>
    requires { AreMasks shapes.now places.now masks.now.contacts masks.now.metal masks.now.polysilicon
        masks.now.diffusion }
    ensures { IfOk result (IsDrawn shapes.now places.now) }
{
    let cut = cut_masks(alloc, &masks.metal, &masks.polysilicon, &masks.diffusion)?;
    finish(alloc, shapes, places, masks, &cut)
}

// What is drawn, from the pieces.
fn finish(
    alloc: Global,
    shapes: &[Rect],
    places: &[Point],
    masks: &Masks,
    cut: &Cut,
) -> Result<Drawing, NoMemory>
    ghost drawn: { List Rect × List Point }
    requires masks { AreMasks drawn.0 drawn.1 masks.now.contacts masks.now.metal masks.now.polysilicon
        masks.now.diffusion }
    requires cut { IsCutOf masks.now.metal masks.now.polysilicon masks.now.diffusion cut.now }
    requires places { places.now ≡ drawn.1 }
    ensures { IfOk result (IsDrawn drawn.0 drawn.1) }
{
    let classes = classify(alloc, masks, cut)?;
    assemble(alloc, places.len(), masks, cut, &classes)
}

// What is drawn, from the classes of pieces. So many places were asked for.
fn assemble(
    alloc: Global,
    count: usize,
    masks: &Masks,
    cut: &Cut,
    classes: &Classed,
) -> Result<Drawing, NoMemory>
    ghost drawn: { List Rect × List Point }
    requires classed { AreClassedMasks drawn.0 drawn.1 masks.now cut.now classes.now }
    requires count { count ≡ length drawn.1 }
    ensures { IfOk result (IsDrawn drawn.0 drawn.1) }
{
    let Columns {
        metal,
        polysilicon,
        diffusion,
    } = node_columns(alloc, count, masks, cut, classes)?;
    let channels = channels(alloc, masks, cut, classes)?;
    Ok(Drawing {
        nodes: classes.nodes.roots.len(),
        channels,
        metal,
        polysilicon,
        diffusion,
    })
}
