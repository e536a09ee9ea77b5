//! Laws: a call of one does nothing, and tells the caller's proof what it ensures.

ghost use Rattle.chip_laws.specs.Fabrics.{FabricLays};
ghost use Rattle.chip_laws.specs.Labels.{LabelsStand};
ghost use Rattle.chip_laws.specs.Laws.{CircuitsHavePads, NetworksDrawCircuits};
ghost use Rattle.chip_laws.specs.Rows.{PathsAreFed, PathsShowRows, RowsFollow};
ghost use Rattle.chip_laws.specs.Sound.{FabricsAreFew, LabelsFit};

use drawing::laws::drawings_carry_over;
use drawn_nets::laws::circuits_are_drawn;
use fabric_laws::laws::{fabric_draws_its_switches, fabrics_are_small, labels_name_conductors};
use mask_laws::laws::masks_draw_networks;
use switch_net::laws::network_is_determined;

/// A circuit that draws a net has its pads, where the bits of the input pads are different nets.
pub fn circuits_have_pads()
    ensures { CircuitsHavePads }
{}

/// An extracted network draws as a circuit the net that the network of the switches draws.
pub fn networks_draw_circuits()
    ensures { NetworksDrawCircuits }
{
    drawings_carry_over();
}

/// A fabric whose switches draw nets, with the labels on them, is that of each network that is extracted from its
/// squares.
pub fn fabric_lays()
    ensures { FabricLays }
{
    fabric_draws_its_switches();
}

/// A circuit that draws nets whose rows show the transfers follows them.
pub fn rows_follow()
    ensures { RowsFollow }
{
    circuits_are_drawn();
}

/// A data path that shows the transfers shows them at the rows of its pads.
pub fn paths_show_rows()
    ensures { PathsShowRows }
{}

/// A label at the corner of a net's own rectangle stands on the net.
pub fn labels_stand()
    ensures { LabelsStand }
{}

/// The data of a path's latches is a gate or a bit of a pad.
pub fn paths_are_fed()
    ensures { PathsAreFed }
{}

/// Labels of different names on nets of a fabric break no rule, whatever their offsets.
pub fn labels_fit()
    ensures { LabelsFit }
{
    labels_name_conductors();
}

/// The masks of a fabric of few segments, lines and marks have few nodes and channels.
pub fn fabrics_are_few()
    ensures { FabricsAreFew }
{
    network_is_determined();
    masks_draw_networks();
    fabrics_are_small();
}
