//! A look at a cluster that waits: its nodes get what they are given, X too.

ghost use Rattle.std.specs.Prelude.{◌≡◌, ◌<◌, ◌↔◌, ℕ, None, IsTrue, Contains, length};
ghost use Rattle.switch_net.specs.Values.{driver_at};
ghost use Rattle.node_clusters.specs.Board.{setting_of, nodes_of, IsMoment};
ghost use Rattle.node_clusters.specs.Rooms.{HaveRoom};
ghost use Rattle.settle.specs.Start.{IsReady};
ghost use Rattle.settle.specs.Wake.{IsVerdict, Renews};

use crate::wake::{rest, wake};
use mp_base::Trit;
use node_clusters::{Board, Sets};
use node_set::NodeSet;
use settle_laws::laws::ordered_settings_settle;
use switch_net::laws::nodes_are_given;

fn verdict(zeros: &NodeSet, ones: &NodeSet, node: u32) -> Trit
    requires zeros { node < zeros.now.room }
    requires ones { node < ones.now.room }
    requires apart { Contains zeros.now.members node → ¬ Contains ones.now.members node }
    ensures { IsVerdict zeros.now.members ones.now.members node result }
{
    if zeros.contains(node) {
        Trit::Zero
    } else if ones.contains(node) {
        Trit::One
    } else {
        Trit::X
    }
}

fn is_same(one: Trit, other: Trit) -> bool
    ensures { IsTrue result ↔ (one ≡ other) }
{
    one == other
}

/// Gives the nodes of a cluster their verdicts, and lets wait what a node gates that changes.
fn renew(
    board: &Board<'_>,
    cluster: &NodeSet,
    zeros: &NodeSet,
    ones: &NodeSet,
    values: &mut [Trit],
    waits: &mut [bool],
)
    requires moment { IsMoment board.now values.old }
    requires cluster { cluster.now.room ≡ nodes_of board.now }
    requires zeros { zeros.now.room ≡ nodes_of board.now }
    requires ones { ones.now.room ≡ nodes_of board.now }
    requires waits { length waits.old ≡ nodes_of board.now }
    requires apart { (n : ℕ) → Contains zeros.now.members n → ¬ Contains ones.now.members n }
    ensures { Renews (driver_at board.now.drive.now) board.now.gated.now zeros.now.members ones.now.members
        cluster.now.members values.old values.new waits.old waits.new }
{
    for node in cluster.as_slice() {
        let value = verdict(zeros, ones, *node);
        if !is_same(values[*node as usize], value) {
            values[*node as usize] = value;
            wake(board.gated[*node as usize].as_slice(), board.drive, waits);
        }
    }
}

/// Looks at the cluster of a node.
pub(crate) fn look(
    board: &Board<'_>,
    node: u32,
    values: &mut [Trit],
    sets: &mut Sets,
    waits: &mut [bool],
)
    requires moment { IsMoment board.now values.old }
    requires node { node < nodes_of board.now }
    requires undriven { driver_at board.now.drive.now node ≡ None }
    requires sets { HaveRoom (nodes_of board.now) sets.old }
    requires waits { length waits.old ≡ nodes_of board.now }
    requires ready { IsReady (setting_of board.now) values.old waits.old }
    ensures sets { HaveRoom (nodes_of board.now) sets.new }
    ensures ready { IsReady (setting_of board.now) values.new waits.new }
{
    nodes_are_given();
    ordered_settings_settle();
    sets.fill(board, values, node);
    rest(&sets.cluster, waits);
    renew(board, &sets.cluster, &sets.zeros, &sets.ones, values, waits);
}
