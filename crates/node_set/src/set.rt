//! The nodes of a set, and their places.

ghost use Rattle.std.specs.Prelude.{◌≡◌, ◌<◌, ◌≤◌, ◌↔◌, ℕ, IfOk, IsTrue, All, Contains, [], ◌∷◌, ◌++◌, length};
ghost use Rattle.std.specs.Prelude.{slice_index};

use std::alloc::{AllocError, Global};
use std::marker::Model;

/// Nodes of a network, in the order in which they were added.
///
/// `order` holds all nodes, those of the set first, and `place` says where each stands in it.
#[derive(Drop)]
pub struct NodeSet {
    count: u32,
    order: Vec<u32>,
    place: Vec<u32>,
}

impl Model for NodeSet {
    ghost use Rattle.std.specs.Prelude.{length, take};
    ghost use Rattle.node_set.specs.Nodes.{Nodes, IsPlaced};

    ghost Value = { Nodes };

    ghost view = { λ s. record { room = length s.order.items; members = take s.count s.order.items } };

    ghost invariant = { λ s. IsPlaced s.count s.order.items s.place.items };
}

fn numbers(alloc: Global, room: u32) -> Result<Vec<u32>, AllocError>
    ensures length { IfOk result (λ v. length v.items ≡ room) }
    ensures each { IfOk result (λ v. (k : ℕ) → k < room → slice_index v.items k ≡ k) }
{
    let mut numbers = Vec::new(alloc);
    for k in 0..room {
        numbers.push(k)?;
    }
    Ok(numbers)
}

impl NodeSet {
    /// The empty set of nodes below a number.
    pub fn new(alloc: Global, room: u32) -> Result<NodeSet, AllocError>
        ensures room { IfOk result (λ s. s.room ≡ room) }
        ensures none { IfOk result (λ s. s.members ≡ []) }
    {
        let order = numbers(alloc, room)?;
        let place = numbers(alloc, room)?;
        Ok(NodeSet {
            count: 0,
            order,
            place,
        })
    }

    /// Takes out all nodes.
    pub fn clear(&mut self)
        ensures room { self.new.room ≡ self.old.room }
        ensures none { self.new.members ≡ [] }
    {
        self.count = 0;
    }

    /// How many nodes are in the set.
    pub fn len(&self) -> u32
        ensures length { result ≡ length self.now.members }
        ensures within { result ≤ self.now.room }
    {
        let _order = &self.order;
        self.count
    }

    /// The node that was added as the one of this number.
    pub fn at(&self, index: u32) -> u32
        requires { index < length self.now.members }
        ensures node { result ≡ slice_index self.now.members index }
        ensures inside { result < self.now.room }
    {
        self.order[index as usize]
    }

    /// The nodes, in their order.
    pub fn as_slice(&self) -> &[u32]
        ensures members { result.now ≡ self.now.members }
        ensures inside { All (λ n. n < self.now.room) self.now.members }
    {
        &self.order[..self.count as usize]
    }

    /// Whether a node is in the set.
    pub fn contains(&self, node: u32) -> bool
        requires { node < self.now.room }
        ensures { IsTrue result ↔ Contains self.now.members node }
    {
        self.place[node as usize] < self.count
    }

    /// Adds a node behind the others.
    pub fn insert(&mut self, node: u32)
        requires room { node < self.old.room }
        requires absent { ¬ Contains self.old.members node }
        ensures room { self.new.room ≡ self.old.room }
        ensures members { self.new.members ≡ self.old.members ++ node ∷ [] }
    {
        let last = self.count;
        let from = self.place[node as usize];
        let other = self.order[last as usize];
        self.order[from as usize] = other;
        self.order[last as usize] = node;
        self.place[other as usize] = from;
        self.place[node as usize] = last;
        self.count = last + 1;
    }
}
