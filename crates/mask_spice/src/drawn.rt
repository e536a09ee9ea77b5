//! From the bytes of a CIF file to its deck.

ghost use Rattle.std.specs.Prelude.{IfOk};
ghost use Rattle.mp_base.specs.Refuses.{IsJudged};
ghost use Rattle.mask_net.specs.Masks.{OfMask};
ghost use Rattle.mask_spice.specs.Drawn.{IsDeckOf};

use extractor::extract;
use mask_net::drawing_of;
use mask_sizes::sizes_of;
use mp_base::Refusal;
use spice_deck::deck;
use std::alloc::Global;

/// The deck of the network that the bytes of a CIF file draw.
///
/// # Errors
///
/// The first broken rule of texts, C1 to C5, or else of drawing, F1 to F10, or else of masks, N1, N2, N3 and N5; want
/// of memory.
pub(crate) fn deck_of(alloc: Global, bytes: Vec<u8>) -> Result<Vec<u8>, Refusal>
    ensures drawn { IfOk result (λ text. IsDeckOf bytes.items text.items) }
    ensures judged { IsJudged (OfMask bytes.items) result }
{
    let flat = drawing_of(alloc, bytes)?;
    let net = extract(alloc, flat.shapes.as_slice(), flat.labels.as_slice())?;
    let sizes = sizes_of(alloc, flat.shapes.as_slice())?;
    Ok(deck(alloc, &net, &sizes)?)
}
