//! From the bytes of a CIF file to its picture.

ghost use Rattle.std.specs.Prelude.{IfOk};
ghost use Rattle.mp_base.specs.Refuses.{IsJudged};
ghost use Rattle.mask_net.specs.Masks.{OfDrawing};
ghost use Rattle.mask_picture.specs.Drawn.{IsPictureOf};

use mask_net::drawing_of;
use mask_svg::picture;
use mp_base::Refusal;
use std::alloc::Global;

/// The picture of what the bytes of a CIF file draw.
///
/// # Errors
///
/// The first broken rule of texts, C1 to C5, or else of drawing, F1 to F10; want of memory.
pub(crate) fn picture_of(alloc: Global, bytes: Vec<u8>) -> Result<Vec<u8>, Refusal>
    ensures drawn { IfOk result (λ text. IsPictureOf bytes.items text.items) }
    ensures judged { IsJudged (OfDrawing bytes.items) result }
{
    let flat = drawing_of(alloc, bytes)?;
    Ok(picture(alloc, flat.shapes.as_slice(), flat.labels.as_slice())?)
}
