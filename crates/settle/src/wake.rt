//! Nodes that wait for a look.

ghost use Rattle.std.specs.Prelude.{◌≡◌, ◌<◌, ◌↔◌, ◌⊎◌, ℕ, None, IsTrue, Contains, length};
ghost use Rattle.node_clusters.specs.Values.{IsMarked};
ghost use Rattle.switch_net.specs.Values.{driver_at};
ghost use Rattle.node_clusters.specs.Links.{AreLinked};
ghost use Rattle.settle.specs.Wake.{Widens, Wakes, WakesBeside};

use mp_base::Trit;
use node_clusters::Board;
use node_set::NodeSet;

fn is_undriven(drive: &[Option<Trit>], node: u32) -> bool
    ensures { IsTrue result ↔ ((node < length drive.now) × (driver_at drive.now node ≡ None)) }
{
    let at = node as usize;
    at < drive.len() && drive[at].is_none()
}

/// Lets the undriven ones of these nodes wait.
pub(crate) fn wake(nodes: &[u32], drive: &[Option<Trit>], waits: &mut [bool])
    requires { length drive.now ≡ length waits.old }
    ensures widens { Widens (driver_at drive.now) waits.old waits.new }
    ensures wakes { Wakes (driver_at drive.now) nodes.now waits.new }
{
    for node in nodes {
        if is_undriven(drive, *node) {
            waits[*node as usize] = true;
        }
    }
}

/// Lets the undriven ends of the channels at a node wait.
pub(crate) fn wake_beside(board: &Board<'_>, node: u32, waits: &mut [bool])
    requires linked { AreLinked board.now.network.now.channels
        (length board.now.network.now.channels) board.now.at.now }
    requires node { node < length board.now.at.now }
    requires waits { length board.now.drive.now ≡ length waits.old }
    ensures widens { Widens (driver_at board.now.drive.now) waits.old waits.new }
    ensures wakes { WakesBeside (driver_at board.now.drive.now) board.now.network.now.channels node waits.new }
{
    let channels = board.network.channels.as_slice();
    for number in board.at[node as usize].as_slice() {
        if *number < channels.len() {
            wake(channels[*number].ends.as_slice(), board.drive, waits);
        }
    }
}

/// Lets the nodes of a set wait no longer.
pub(crate) fn rest(set: &NodeSet, waits: &mut [bool])
    requires { set.now.room ≡ length waits.old }
    ensures fewer { (n : ℕ) → IsMarked waits.new n → IsMarked waits.old n }
    ensures rest { (n : ℕ) → IsMarked waits.old n → IsMarked waits.new n ⊎ Contains set.now.members n }
{
    for node in set.as_slice() {
        waits[*node as usize] = false;
    }
}
