//! Laws of renumbered networks, for the proofs of crates above. A call of one does nothing.

ghost use Rattle.renumbering.specs.Laws.{RenumberingsTurn, RenumberingsCompose, SameTurns, SameComposes};
ghost use Rattle.renumbering.specs.Laws.{SettlesAlike, RunsAlike};

use switch_net::laws::networks_settle;

/// Renumberings go back and compose, by their own maps; so does being the same up to numbering.
pub fn renumberings_compose()
    ensures turn { RenumberingsTurn }
    ensures then { RenumberingsCompose }
    ensures same_turns { SameTurns }
    ensures same_composes { SameComposes }
{}

/// With the same drivers and the same values before, a renumbered network settles to the same values.
pub fn renumbered_networks_settle()
    ensures { SettlesAlike }
{}

/// From the same values a network that is the same up to numbering shows the same along the same inputs.
pub fn renumbered_circuits_run()
    ensures { RunsAlike }
{
    networks_settle();
}
