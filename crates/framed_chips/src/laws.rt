//! Laws: a call of one does nothing, and tells the caller's proof what it ensures.

ghost use Rattle.framed_chips.specs.Cornered.{CornersAreCarried, CornersAreParted};
ghost use Rattle.framed_chips.specs.Framed.{FramedAreClean, FramedAreEmittable, FramedAreFew, FramedAreHeld};
ghost use Rattle.framed_chips.specs.Framed.{FramedAreSized};

use chip_pads::laws::{pads_are_clean, pads_are_glued, ports_are_parted};
use cif_emit::laws::fabrics_are_on_grid;
use fabric_laws::laws::{channels_are_sized, fabrics_face_west};
use mask_gluing::laws::metal_is_glued;
use padded_chips::laws::labels_are_carried;

/// Labels in the corners of nets that have ports may be given to `padded`, which carries each to a pad of its net.
pub fn corners_are_padded()
    ensures parted { CornersAreParted }
    ensures carried { CornersAreCarried }
{
    ports_are_parted();
    labels_are_carried();
}

/// A chip with pads is as wide and as high as its fabric and its pads are, breaks no lambda rule, has the channels of
/// its fabric, and five rectangles more for each pad. It can be written, if it isn't too large.
pub fn framed_chips_are_kept()
    ensures held { FramedAreHeld }
    ensures clean { FramedAreClean }
    ensures sized { FramedAreSized }
    ensures few { FramedAreFew }
    ensures emittable { FramedAreEmittable }
{
    pads_are_glued();
    pads_are_clean();
    metal_is_glued();
    channels_are_sized();
    fabrics_face_west();
    fabrics_are_on_grid();
}
