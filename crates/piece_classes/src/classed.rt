//! The classes of joined pieces.

ghost use Rattle.std.specs.Prelude.{IfOk, List};
ghost use Rattle.lam_geom.specs.declared.rect.Rect.{Rect};
ghost use Rattle.lam_geom.specs.declared.place.Point.{Point};
ghost use Rattle.mask_pieces.specs.Masks.{AreMasks};
ghost use Rattle.mask_pieces.specs.CutOf.{IsCutOf};
ghost use Rattle.piece_classes.specs.Classed.{AreClassed};

use crate::linking::link_all;
use crate::numbering::{Classes, number};
use lam_geom::laws::rectangles_are_joined;
use mask_pieces::{Cut, Masks};
use mask_runs::laws::one_colour;
use mp_base::NoMemory;
use std::alloc::Global;
use union_find::leasts;

/// The classes of the pieces that conduct, and of those of channels.
#[derive(Drop)]
pub struct Classed {
    pub nodes: Classes,
    pub channels: Classes,
}

/// The classes of the pieces of these masks that are joined, by tiles that touch and by contacts. More than 2^32 pieces
/// count as want of memory.
pub fn classify(alloc: Global, masks: &Masks, cut: &Cut) -> Result<Classed, NoMemory>
    ghost drawn: { List Rect × List Point }
    requires masks { AreMasks drawn.0 drawn.1 masks.now.contacts masks.now.metal masks.now.polysilicon
        masks.now.diffusion }
    requires cut { IsCutOf masks.now.metal masks.now.polysilicon masks.now.diffusion cut.now }
    ensures { IfOk result (λ c. AreClassed drawn.0 cut.now.pieces c.nodes c.channels) }
{
    one_colour();
    rectangles_are_joined();
    let pieces = cut.pieces.as_slice();
    let links = link_all(alloc, masks, cut)?;
    let Ok(count) = u32::try_from(pieces.len()) else {
        return Err(NoMemory);
    };
    let least = leasts(alloc, count, links.as_slice())?;
    let nodes = number(alloc, least.as_slice(), pieces, true)?;
    let channels = number(alloc, least.as_slice(), pieces, false)?;
    Ok(Classed { nodes, channels })
}
