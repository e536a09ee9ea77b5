//! All links between pieces.

ghost use Rattle.std.specs.Prelude.{IfOk};
ghost use Rattle.piece_classes.specs.Linking.{AreAllLinks, CanLink};

use crate::contacts::link_contacts;
use crate::touching::link_touching;
use mask_pieces::{Cut, Masks};
use mp_base::{List, NoMemory};
use std::alloc::Global;
use union_find::Pair;

/// The links of tiles that touch and of contacts.
pub(crate) fn link_all(alloc: Global, masks: &Masks, cut: &Cut) -> Result<List<Pair>, NoMemory>
    requires metal { CanLink masks.now.contacts masks.now.metal cut.now.metal cut.now.pieces }
    requires polysilicon { CanLink masks.now.contacts masks.now.polysilicon cut.now.polysilicon cut.now.pieces }
    requires diffusion { CanLink masks.now.contacts masks.now.diffusion cut.now.diffusion cut.now.pieces }
    ensures { IfOk result (AreAllLinks masks.now cut.now) }
{
    let pieces = cut.pieces.as_slice();
    // There are about as many links as pieces.
    let mut links = List::from_vec(Vec::with_capacity(alloc, pieces.len())?);
    link_touching(
        &mut links,
        masks.metal.pairs.as_slice(),
        cut.metal.numbers.as_slice(),
        pieces,
    )?;
    link_touching(
        &mut links,
        masks.polysilicon.pairs.as_slice(),
        cut.polysilicon.numbers.as_slice(),
        pieces,
    )?;
    link_touching(
        &mut links,
        masks.diffusion.pairs.as_slice(),
        cut.diffusion.numbers.as_slice(),
        pieces,
    )?;
    link_contacts(
        &mut links,
        masks.contacts.tiles.as_slice(),
        cut.metal.over.as_slice(),
        cut.polysilicon.over.as_slice(),
        cut.diffusion.over.as_slice(),
    )?;
    Ok(links)
}
