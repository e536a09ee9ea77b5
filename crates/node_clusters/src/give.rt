//! What a cluster of nodes is given.

ghost use Rattle.std.specs.Prelude.{◌≡◌, ◌<◌, ◌↔◌, ℕ, None, IsTrue, Contains, length};
ghost use Rattle.switch_net.specs.Settled.{MayBeOn, Gives};
ghost use Rattle.switch_net.specs.Values.{value_at, driver_at};
ghost use Rattle.node_clusters.specs.Board.{setting_of, nodes_of, IsMoment};
ghost use Rattle.node_clusters.specs.Spread.{IsSource, Borders, Picks};
ghost use Rattle.node_clusters.specs.Give.{IsCluster, TellGiven};

use crate::board::Board;
use crate::route::{Route, Source};
use crate::spread::{borders, grow, spread};
use mp_base::Trit;
use node_set::NodeSet;
use switch_net::laws::nodes_are_given;

/// The undriven nodes that are possibly joined to a node, itself among them.
pub(crate) fn gather(board: &Board<'_>, values: &[Trit], node: u32, cluster: &mut NodeSet)
    requires moment { IsMoment board.now values.now }
    requires node { node < nodes_of board.now }
    requires undriven { driver_at board.now.drive.now node ≡ None }
    requires room { cluster.old.room ≡ nodes_of board.now }
    ensures room { cluster.new.room ≡ cluster.old.room }
    ensures cluster { IsCluster (setting_of board.now) (value_at values.now) cluster.new.members }
    ensures node { Contains cluster.new.members node }
{
    cluster.clear();
    cluster.insert(node);
    grow(board, values, Route::Maybe, cluster);
}

/// Whether a channel that may be on joins a cluster to a source.
fn meets(board: &Board<'_>, values: &[Trit], source: Source, cluster: &NodeSet) -> bool
    requires moment { IsMoment board.now values.now }
    requires room { cluster.now.room ≡ nodes_of board.now }
    ensures { IsTrue result ↔ ((n : ℕ) × Contains cluster.now.members n
        × Borders (setting_of board.now) (MayBeOn (value_at values.now)) (IsSource source (setting_of board.now)) n) }
{
    for node in cluster.as_slice() {
        if borders(board, values, Route::Maybe, source, *node) {
            return true;
        }
    }
    false
}

/// Whether each node of a set had a value.
fn all_had(before: &[Trit], value: Trit, set: &NodeSet) -> bool
    requires { length before.now ≡ set.now.room }
    ensures { IsTrue result ↔ ((n : ℕ) → Contains set.now.members n → value_at before.now n ≡ value) }
{
    for node in set.as_slice() {
        if before[*node as usize] != value {
            return false;
        }
    }
    true
}

/// Adds the nodes that are in the one set and not in the other.
fn add_unopposed(nodes: &NodeSet, held: &NodeSet, against: &NodeSet, given: &mut NodeSet)
    requires held { held.now.room ≡ nodes.now.room }
    requires against { against.now.room ≡ nodes.now.room }
    requires given { given.old.room ≡ nodes.now.room }
    ensures room { given.new.room ≡ given.old.room }
    ensures given { Picks (λ n. Contains held.now.members n
        × ¬ Contains against.now.members n) nodes.now.members given.new.members }
{
    given.clear();
    for node in nodes.as_slice() {
        if held.contains(*node) && !against.contains(*node) && !given.contains(*node) {
            given.insert(*node);
        }
    }
}

fn copy(from: &NodeSet, to: &mut NodeSet)
    requires { to.old.room ≡ from.now.room }
    ensures room { to.new.room ≡ to.old.room }
    ensures members { (n : ℕ) → Contains to.new.members n ↔ Contains from.now.members n }
{
    to.clear();
    for node in from.as_slice() {
        if !to.contains(*node) {
            to.insert(*node);
        }
    }
}

/// Finds the nodes of a cluster that a value is given: those held and not against.
fn tell_given(
    board: &Board<'_>,
    values: &[Trit],
    value: Trit,
    cluster: &NodeSet,
    held: &mut NodeSet,
    against: &mut NodeSet,
)
    requires moment { IsMoment board.now values.now }
    requires cluster { IsCluster (setting_of board.now) (value_at values.now) cluster.now.members }
    requires cluster_room { cluster.now.room ≡ nodes_of board.now }
    requires held { held.old.room ≡ nodes_of board.now }
    requires against { against.old.room ≡ nodes_of board.now }
    ensures held { held.new.room ≡ held.old.room }
    ensures against { against.new.room ≡ against.old.room }
    ensures given { TellGiven (setting_of board.now)
        (value_at values.now) value cluster.now.members held.new.members against.new.members }
{
    nodes_are_given();
    if meets(board, values, Source::Against(value), cluster) {
        spread(
            board,
            values,
            Route::StrongOn,
            Source::For(value),
            cluster,
            held,
        );
        spread(
            board,
            values,
            Route::StrongMaybe,
            Source::Against(value),
            cluster,
            against,
        );
    } else if meets(board, values, Source::Any, cluster) {
        spread(board, values, Route::On, Source::For(value), cluster, held);
        against.clear();
    } else {
        against.clear();
        if all_had(board.before, value, cluster) {
            copy(cluster, held);
        } else {
            held.clear();
        }
    }
}

/// Finds the nodes of a cluster that a value is given.
pub(crate) fn give(
    board: &Board<'_>,
    values: &[Trit],
    value: Trit,
    cluster: &NodeSet,
    held: &mut NodeSet,
    against: &mut NodeSet,
    given: &mut NodeSet,
)
    requires moment { IsMoment board.now values.now }
    requires cluster { IsCluster (setting_of board.now) (value_at values.now) cluster.now.members }
    requires cluster_room { cluster.now.room ≡ nodes_of board.now }
    requires held { held.old.room ≡ nodes_of board.now }
    requires against { against.old.room ≡ nodes_of board.now }
    requires given { given.old.room ≡ nodes_of board.now }
    ensures held { held.new.room ≡ held.old.room }
    ensures against { against.new.room ≡ against.old.room }
    ensures given_room { given.new.room ≡ given.old.room }
    ensures given { Picks (λ n. Gives (setting_of board.now) (value_at values.now) n value) cluster.now.members
        given.new.members }
{
    tell_given(board, values, value, cluster, held, against);
    add_unopposed(cluster, held, against, given);
}
