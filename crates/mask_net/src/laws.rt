//! Laws of CIF files and their networks: a call of one does nothing, and tells the caller's proof what it ensures.

ghost use Rattle.mask_net.specs.Laws.{OneNetwork, OneVerdict, OneDrawingVerdict, SoundWithPads};

use cif_form::laws::{scan_is_unique, walk_is_unique};
use mask_laws::laws::squares_tell_masks;
use switch_net::laws::{first_rule_is_determined, network_is_determined};

/// A file draws at most one network.
pub fn one_network()
    ensures { OneNetwork }
{
    scan_is_unique();
    walk_is_unique();
    network_is_determined();
    squares_tell_masks();
}

/// A file breaks no rule of texts, drawing and masks, or has one first broken rule at one place.
pub fn one_verdict()
    ensures { OneVerdict }
{
    scan_is_unique();
    walk_is_unique();
    network_is_determined();
    squares_tell_masks();
    first_rule_is_determined();
}

/// A file breaks no rule of texts and drawing, or has one first broken rule of these at one place.
pub fn one_drawing_verdict()
    ensures { OneDrawingVerdict }
{
    scan_is_unique();
    walk_is_unique();
    network_is_determined();
    squares_tell_masks();
}

/// A file whose mask is sound with some pads draws the mask's network.
pub fn sound_with_pads()
    ensures { SoundWithPads }
{}
