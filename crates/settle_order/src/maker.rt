//! Orders as they are made: hints, which the check believes or not.

ghost use Rattle.settle_order.specs.Order.{AreRoomy};

use crate::order::{Demand, Order};
use mp_base::{List, Trit};
use std::alloc::{AllocError, Global};
use switch_net::{Channel, ChannelKind, Network};

/// What making an order takes. Undriven nodes that channels join are a piece, named by one of its nodes.
#[derive(Drop)]
pub(crate) struct Maker {
    parents: Vec<u32>,
    firsts: Vec<u32>,
    nexts: Vec<u32>,
    counts: Vec<u32>,
    ready: Vec<u32>,
}

/// No node.
const NONE: u32 = u32::MAX;

fn at(table: &[u32], index: u32) -> u32 {
    match table.get(index as usize) {
        Some(entry) => *entry,
        None => NONE,
    }
}

fn put(table: &mut [u32], index: u32, entry: u32) {
    let index = index as usize;
    if index < table.len() {
        table[index] = entry;
    }
}

fn is_undriven(demands: &[Demand], node: u32) -> bool {
    matches!(demands.get(node as usize), Some(Demand::Undriven))
}

/// The node that names a piece. What stands on the way is moved up.
fn find(parents: &mut [u32], node: u32) -> u32 {
    let mut node = node;
    for _step in 0..u32::MAX {
        let parent = at(parents, node);
        if parent == node || parent == NONE {
            return node;
        }
        let up = at(parents, parent);
        put(parents, node, up);
        node = up;
    }
    node
}

fn join(parents: &mut [u32], a: u32, b: u32) {
    let a = find(parents, a);
    let b = find(parents, b);
    if a < b {
        put(parents, b, a);
    } else if b < a {
        put(parents, a, b);
    }
}

/// Joins the undriven ends of a channel; or asks that its gate be driven to 0, where it is and that parts two of them.
fn join_ends(
    channel: &Channel,
    drive: &[Option<Trit>],
    demands: &mut [Demand],
    parents: &mut [u32],
) {
    let gate = channel.gate as usize;
    let is_cut = matches!(channel.kind, ChannelKind::Enhancement)
        && matches!(drive.get(gate), Some(Some(Trit::Zero)));
    let mut first = NONE;
    for end in channel.ends.as_slice() {
        if is_undriven(demands, *end) {
            if first == NONE {
                first = *end;
            } else if !is_cut {
                join(parents, first, *end);
            } else if gate < demands.len() {
                demands[gate] = Demand::Low;
            }
        }
    }
}

fn demand(drive: &[Option<Trit>], demands: &mut [Demand]) {
    for node in 0..demands.len() {
        demands[node] = match drive.get(node) {
            Some(Some(_)) => Demand::Driven,
            _ => Demand::Undriven,
        };
    }
}

fn join_all(
    network: &Network,
    drive: &[Option<Trit>],
    demands: &mut [Demand],
    parents: &mut [u32],
) {
    for node in 0..network.nodes {
        put(parents, node, node);
    }
    for channel in network.channels.as_slice() {
        join_ends(channel, drive, demands, parents);
    }
}

impl Maker {
    pub(crate) fn new(alloc: Global, room: usize) -> Result<Maker, AllocError> {
        Ok(Maker {
            parents: vec![in alloc; 0; room]?,
            firsts: vec![in alloc; 0; room]?,
            nexts: vec![in alloc; 0; room]?,
            counts: vec![in alloc; 0; room]?,
            ready: vec![in alloc; 0; room]?,
        })
    }

    /// Lists the undriven nodes of each piece.
    fn list_pieces(&mut self, nodes: u32, demands: &[Demand]) {
        self.firsts.fill(NONE);
        for node in 0..nodes {
            if is_undriven(demands, node) {
                let piece = find(&mut self.parents, node);
                put(&mut self.nexts, node, at(&self.firsts, piece));
                put(&mut self.firsts, piece, node);
            }
        }
    }

    /// Counts a gate at the pieces of what it gates.
    fn count_gate(&mut self, ends: &[u32], demands: &[Demand]) {
        for end in ends {
            if is_undriven(demands, *end) {
                let piece = find(&mut self.parents, *end);
                let count = at(&self.counts, piece);
                put(&mut self.counts, piece, count.wrapping_add(1));
            }
        }
    }

    fn count_gates(&mut self, nodes: u32, gated: &[List<u32>], demands: &[Demand]) {
        self.counts.fill(0);
        for node in 0..nodes {
            if is_undriven(demands, node) {
                if let Some(ends) = gated.get(node as usize) {
                    self.count_gate(ends.as_slice(), demands);
                }
            }
        }
    }

    /// Lets the pieces that no node gates be ready, and says how many they are.
    fn begin(&mut self, nodes: u32) -> u32 {
        let mut count: u32 = 0;
        for node in 0..nodes {
            if at(&self.firsts, node) != NONE && at(&self.counts, node) == 0 {
                put(&mut self.ready, count, node);
                count = count.wrapping_add(1);
            }
        }
        count
    }

    /// Takes a gate from the pieces of what it gates. Those that have none left are ready.
    fn release(&mut self, ends: &[u32], demands: &[Demand], ready: u32) -> u32 {
        let mut ready = ready;
        for end in ends {
            if is_undriven(demands, *end) {
                let piece = find(&mut self.parents, *end);
                let count = at(&self.counts, piece).wrapping_sub(1);
                put(&mut self.counts, piece, count);
                if count == 0 {
                    put(&mut self.ready, ready, piece);
                    ready = ready.wrapping_add(1);
                }
            }
        }
        ready
    }

    /// Ranks the pieces, each behind those that gate it, and says how many nodes they have.
    fn rank_pieces(
        &mut self,
        nodes: u32,
        gated: &[List<u32>],
        demands: &[Demand],
        ranks: &mut [u32],
        order: &mut [u32],
    ) -> u32 {
        let mut ready = self.begin(nodes);
        let mut rank: u32 = 0;
        let mut count: u32 = 0;
        for _piece in 0..nodes {
            if rank >= ready {
                return count;
            }
            let mut node = at(&self.firsts, at(&self.ready, rank));
            for _member in 0..nodes {
                if node == NONE {
                    break;
                }
                put(ranks, node, rank);
                put(order, count, node);
                count = count.wrapping_add(1);
                if let Some(ends) = gated.get(node as usize) {
                    ready = self.release(ends.as_slice(), demands, ready);
                }
                node = at(&self.nexts, node);
            }
            rank = rank.wrapping_add(1);
        }
        count
    }

    /// Makes an order for these drivers, where there is one. `gated` has for each node what its channels join.
    pub(crate) fn make(
        &mut self,
        network: &Network,
        gated: &[List<u32>],
        drive: &[Option<Trit>],
        order: &mut Order,
    )
        requires { AreRoomy network.now.nodes order.old }
        ensures { AreRoomy network.now.nodes order.new }
    {
        demand(drive, &mut order.demands);
        join_all(network, drive, &mut order.demands, &mut self.parents);
        self.list_pieces(network.nodes, &order.demands);
        self.count_gates(network.nodes, gated, &order.demands);
        order.count = self.rank_pieces(
            network.nodes,
            gated,
            &order.demands,
            &mut order.ranks,
            &mut order.nodes,
        ) as usize;
    }
}
