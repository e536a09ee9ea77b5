//! Laws of verdicts: a call of one does nothing, and tells the caller's proof what it ensures.

ghost use Rattle.std.specs.Prelude.{ℕ, List, Option};
ghost use Rattle.mp_base.specs.declared.refusal.Broken.{Broken};
ghost use Rattle.mask_net.specs.Masks.{OfMask};

use cif_form::laws::{scan_is_reading, scanned_commands_fit, walk_is_expansion};
use cif_reader::laws::text_verdict;
use cif_verdict::laws::walks_exist;
use mask_laws::laws::masks_are_judged;

/// Every file draws a network and breaks no rule of texts, drawing and masks, or one is the first that it breaks, at a
/// place. There is one verdict at most: see the laws of `mask_net`.
pub fn file_verdict()
    ensures { (bytes : List ℕ) → (verdict : Option Broken) × OfMask bytes verdict }
{
    text_verdict();
    scanned_commands_fit();
    scan_is_reading();
    walks_exist();
    walk_is_expansion();
    masks_are_judged();
}
