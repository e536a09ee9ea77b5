//! Laws of fabrics.

ghost use Rattle.fabric_laws.specs.Theorem.{FabricDrawsSwitches, FabricIsSwitches, FabricsAreSmall, LabelsName};
ghost use Rattle.fabric_laws.specs.Sized.{FabricsAreSized};
ghost use Rattle.fabric_laws.specs.Clean.{FabricsAreClean};
ghost use Rattle.fabric_laws.specs.West.{FabricsAreHeld, FabricsFaceWest};

use lam_geom::laws::rectangles_are_joined;

/// The squares of a fabric draw the network of its switches, up to the numbering of nodes and channels, and a label on
/// a net is on the node of that net.
pub fn fabric_draws_its_switches()
    ensures labelled { FabricDrawsSwitches }
    ensures same { FabricIsSwitches }
{
    rectangles_are_joined();
}

/// A label on a net of a fabric names a conductor.
pub fn labels_name_conductors()
    ensures { LabelsName }
{
    rectangles_are_joined();
}

/// A fabric has no more nodes and channels than it has segments, lines and marks, and two.
pub fn fabrics_are_small()
    ensures { FabricsAreSmall }
{
    fabric_draws_its_switches();
}

/// Each channel of a fabric is a transistor's, 2 by 2 lambda with its ends at the left and the right, or a pull-up's,
/// 2 wide and 16 high with its ends below and above.
pub fn channels_are_sized()
    ensures { FabricsAreSized }
{
    rectangles_are_joined();
}

/// What a fabric draws breaks no lambda rule at any square.
pub fn fabrics_are_clean()
    ensures { FabricsAreClean }
{
    rectangles_are_joined();
}

/// Nothing is drawn west of a fabric, and what is drawn within 7 lambda of its west edge are crossings under the trunk
/// of ground, whose metal is on the node of the net that begins there.
pub fn fabrics_face_west()
    ensures west { FabricsFaceWest }
    ensures held { FabricsAreHeld }
{
    rectangles_are_joined();
}
