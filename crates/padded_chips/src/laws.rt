//! Laws: a call of one does nothing, and tells the caller's proof what it ensures.

ghost use Rattle.padded_chips.specs.Carrying.{LabelsAreCarried};
ghost use Rattle.padded_chips.specs.Padding.{PadsKeepLayouts};

use chip_laws::laws::labels_stand;
use chip_pads::laws::pads_are_glued;
use mask_gluing::laws::metal_is_glued;
use mask_laws::laws::{masks_are_numbered, masks_draw_networks};
use renumbering::laws::renumberings_compose;

/// Where the rectangles of a path's chip are laid out, they are so with pieces glued to them and with the labels moved
/// onto these.
pub fn pads_keep_layouts()
    ensures { PadsKeepLayouts }
{
    metal_is_glued();
    masks_are_numbered();
    masks_draw_networks();
    renumberings_compose();
}

/// A label in the corner of a net of a fabric may be moved to a pad of the net.
pub fn labels_are_carried()
    ensures { LabelsAreCarried }
{
    pads_are_glued();
    labels_stand();
}
