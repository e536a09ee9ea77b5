//! Laws of networks, for the proofs of crates above. A call of one does nothing.

ghost use Rattle.switch_net.specs.Cutting.{ChannelsFollowPieces, ConductorsFollowPieces};
ghost use Rattle.switch_net.specs.Laws.{ChipLabelsDiffer, GivesAlongReach, GivesGrow, GivesOnce, OneFirstOfCircuit};
ghost use Rattle.switch_net.specs.Laws.{OneFirstOfMask, OneNetwork, OneNumbering, SettledExists, SettledOnce};
ghost use Rattle.switch_net.specs.Laws.{SettlesAgain, TraceExists, TraceOnce};

use lam_geom::laws::rectangles_are_joined;

/// However conductors and channels are cut into rectangles, the rectangles tell what is joined.
pub fn pieces_tell_nodes()
    ensures conductors { ConductorsFollowPieces }
    ensures channels { ChannelsFollowPieces }
{
    rectangles_are_joined();
}

/// The nodes and channels of a mask have one numbering, and with labels it draws at most one network.
pub fn network_is_determined()
    ensures numbering { OneNumbering }
    ensures network { OneNetwork }
{}

/// At most one of the rules N1 to N5 is the first that is broken.
pub fn first_rule_is_determined()
    ensures mask { OneFirstOfMask }
    ensures circuit { OneFirstOfCircuit }
{}

/// What nodes are given grows with the values, is at most one value a node, and is told by what is reached.
pub fn nodes_are_given()
    ensures grow { GivesGrow }
    ensures once { GivesOnce }
    ensures reach { GivesAlongReach }
{}

/// Each network has settled values in each setting, exactly one each, and they settle to themselves.
pub fn networks_settle()
    ensures exist { SettledExists }
    ensures once { SettledOnce }
    ensures again { SettlesAgain }
{}

/// A network that has its pads has a trace from any values along any inputs that fit, exactly one.
pub fn circuits_run()
    ensures exist { TraceExists }
    ensures once { TraceOnce }
{}

/// The labels of a chip differ from each other: no pad has the name of a supply, and no two bits have one label.
pub fn chip_labels_differ()
    ensures { ChipLabelsDiffer }
{}
