//! Sets of nodes that spread over channels of one sort.

ghost use Rattle.std.specs.Prelude.{◌≡◌, ◌<◌, ◌↔◌, IsTrue, All, Any, length};
ghost use Rattle.switch_net.specs.Values.{value_at, driver_at};
ghost use Rattle.node_clusters.specs.Board.{setting_of, nodes_of, IsMoment};
ghost use Rattle.node_clusters.specs.Spread.{Uses, IsSource, IsSourceOf, Borders, AddsEnds, AddsAdjoining, Spreads};
ghost use Rattle.node_clusters.specs.Spread.{Picks, HoldsReached};
ghost use Rattle.node_clusters.specs.Give.{IsCluster};

use crate::board::Board;
use crate::route::{Route, Source};
use mp_base::Trit;
use node_set::NodeSet;

fn has_source(source: Source, ends: &[u32], drive: &[Option<Trit>]) -> bool
    requires { All (λ e. e < length drive.now) ends.now }
    ensures { IsTrue result ↔ Any (λ a. IsSourceOf source (driver_at drive.now a)) ends.now }
{
    ends.iter().any(|e| source.is_at(drive[*e as usize]))
}

/// Whether a channel joins a node to a source.
pub(crate) fn borders(
    board: &Board<'_>,
    values: &[Trit],
    route: Route,
    source: Source,
    node: u32,
) -> bool
    requires moment { IsMoment board.now values.now }
    requires node { node < nodes_of board.now }
    ensures { IsTrue result ↔ Borders (setting_of board.now) (Uses route (value_at values.now))
        (IsSource source (setting_of board.now)) node }
{
    for number in board.numbers_at(node) {
        let channel = board.channel(*number);
        if route.uses(channel, values) && has_source(source, channel.ends.as_slice(), board.drive) {
            return true;
        }
    }
    false
}

fn add_ends(drive: &[Option<Trit>], ends: &[u32], set: &mut NodeSet)
    requires ends { All (λ e. e < set.old.room) ends.now }
    requires drive { length drive.now ≡ set.old.room }
    ensures room { set.new.room ≡ set.old.room }
    ensures adds { AddsEnds (driver_at drive.now) ends.now set.old.members set.new.members }
{
    for end in ends {
        if drive[*end as usize].is_none() && !set.contains(*end) {
            set.insert(*end);
        }
    }
}

fn add_adjoining(board: &Board<'_>, values: &[Trit], route: Route, node: u32, set: &mut NodeSet)
    requires moment { IsMoment board.now values.now }
    requires node { node < nodes_of board.now }
    requires room { set.old.room ≡ nodes_of board.now }
    ensures room { set.new.room ≡ set.old.room }
    ensures adds { AddsAdjoining (setting_of board.now)
        (Uses route (value_at values.now)) node set.old.members set.new.members }
{
    for number in board.numbers_at(node) {
        let channel = board.channel(*number);
        if route.uses(channel, values) {
            add_ends(board.drive, channel.ends.as_slice(), set);
        }
    }
}

/// Adds all that the nodes of a set reach. Each node enters the set once.
pub(crate) fn grow(board: &Board<'_>, values: &[Trit], route: Route, set: &mut NodeSet)
    requires moment { IsMoment board.now values.now }
    requires room { set.old.room ≡ nodes_of board.now }
    ensures room { set.new.room ≡ set.old.room }
    ensures spreads { Spreads (setting_of board.now)
        (Uses route (value_at values.now)) set.old.members set.new.members }
{
    let mut next: u32 = 0;
    while next < set.len() {
        let node = set.at(next);
        add_adjoining(board, values, route, node, set);
        next += 1;
    }
}

fn seed(
    board: &Board<'_>,
    values: &[Trit],
    route: Route,
    source: Source,
    cluster: &NodeSet,
    set: &mut NodeSet,
)
    requires moment { IsMoment board.now values.now }
    requires cluster { cluster.now.room ≡ nodes_of board.now }
    requires room { set.old.room ≡ nodes_of board.now }
    ensures room { set.new.room ≡ set.old.room }
    ensures seeds { Picks (Borders (setting_of board.now) (Uses route (value_at values.now))
        (IsSource source (setting_of board.now))) cluster.now.members set.new.members }
{
    set.clear();
    for node in cluster.as_slice() {
        if !set.contains(*node) && borders(board, values, route, source, *node) {
            set.insert(*node);
        }
    }
}

/// Of a cluster, the nodes that the sources reach.
pub(crate) fn spread(
    board: &Board<'_>,
    values: &[Trit],
    route: Route,
    source: Source,
    cluster: &NodeSet,
    set: &mut NodeSet,
)
    requires moment { IsMoment board.now values.now }
    requires cluster { IsCluster (setting_of board.now) (value_at values.now) cluster.now.members }
    requires cluster_room { cluster.now.room ≡ nodes_of board.now }
    requires room { set.old.room ≡ nodes_of board.now }
    ensures room { set.new.room ≡ set.old.room }
    ensures reached { HoldsReached (setting_of board.now) (Uses route (value_at values.now))
        (IsSource source (setting_of board.now)) cluster.now.members set.new.members }
{
    seed(board, values, route, source, cluster, set);
    grow(board, values, route, set);
}
