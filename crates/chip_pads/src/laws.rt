//! Laws: a call of one does nothing, and tells the caller's proof what it ensures.

ghost use Rattle.chip_pads.specs.Heights.{PortsAreOfNets, PortsAreParted};
ghost use Rattle.chip_pads.specs.Unders.{UndersAddNothing};
ghost use Rattle.chip_pads.specs.Ports.{PadsAreClean, PadsAreDrawn, PadsAreGlued, PadsAreHeld, PadsReachNets};

use fabric_laws::laws::{fabrics_are_clean, fabrics_face_west};
use lam_geom::laws::rectangles_are_joined;

/// The pads of a frame beside a fabric, whose ports are the row of ground and crossings under its trunk, are glued to
/// the nets of their ports, and what they cover is what is drawn of them.
pub fn pads_are_glued()
    ensures glued { PadsAreGlued }
    ensures nets { PadsReachNets }
    ensures drawn { PadsAreDrawn }
    ensures held { PadsAreHeld }
{
    rectangles_are_joined();
    fabrics_face_west();
}

/// The ports of two nets are far enough apart for routes, and a pad at the height of a port is for the port's net.
pub fn ports_are_parted()
    ensures parted { PortsAreParted }
    ensures nets { PortsAreOfNets }
{}

/// A fabric with such a frame breaks no lambda rule.
pub fn pads_are_clean()
    ensures { PadsAreClean }
{
    rectangles_are_joined();
    fabrics_face_west();
    fabrics_are_clean();
}

/// The switches of a fabric with crossings under its ground trunk are those of the fabric without them.
pub fn unders_add_nothing()
    ensures { UndersAddNothing }
{}
