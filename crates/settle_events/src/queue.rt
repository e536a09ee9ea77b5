//! Nodes that wait to be looked at.

ghost use Rattle.std.specs.Prelude.{◌≡◌, IfOk, length};

use node_set::NodeSet;
use std::alloc::{AllocError, Global};

/// Clusters of more nodes wait until no node of a smaller one does.
const SMALL: u32 = 16;

#[derive(Drop)]
struct Ring {
    nodes: Vec<u32>,
    first: usize,
    count: usize,
}

/// Nodes that wait, each at most once. They are hints alone: what finds no room is left out.
#[derive(Drop)]
pub struct Queue {
    soon: Ring,
    later: Ring,
    waits: Vec<bool>,
    inside: Vec<bool>,
    large: Vec<bool>,
}

impl Ring {
    fn new(alloc: Global, room: usize) -> Result<Ring, AllocError> {
        Ok(Ring {
            nodes: vec![in alloc; 0; room]?,
            first: 0,
            count: 0,
        })
    }

    fn push(&mut self, node: u32) {
        let room = self.nodes.len();
        if self.count < room && self.first < room {
            let left = room - self.first;
            let last = if self.count < left {
                self.first + self.count
            } else {
                self.count - left
            };
            self.nodes[last] = node;
            self.count += 1;
        }
    }

    fn pop(&mut self) -> Option<u32> {
        let room = self.nodes.len();
        if self.count == 0 || self.first >= room {
            return None;
        }
        let node = self.nodes[self.first];
        self.count -= 1;
        self.first += 1;
        if self.first == room {
            self.first = 0;
        }
        Some(node)
    }
}

impl Queue {
    /// A queue with room for so many nodes, in which none waits.
    pub fn new(alloc: Global, nodes: u32) -> Result<Queue, AllocError>
        ensures room { IfOk result (λ q. length q.waits.items ≡ nodes) }
    {
        let room = nodes as usize;
        Ok(Queue {
            soon: Ring::new(alloc, room)?,
            later: Ring::new(alloc, room)?,
            waits: vec![in alloc; false; room]?,
            inside: vec![in alloc; false; room]?,
            large: vec![in alloc; false; room]?,
        })
    }

    pub(crate) fn push(&mut self, node: u32) {
        let at = node as usize;
        if at < self.waits.len() {
            self.waits[at] = true;
        }
        if at < self.inside.len() && !self.inside[at] {
            self.inside[at] = true;
            if at < self.large.len() && self.large[at] {
                self.later.push(node);
            } else {
                self.soon.push(node);
            }
        }
    }

    /// Takes the next node from a ring, and says whether it still waits.
    pub(crate) fn pop(&mut self) -> Option<(u32, bool)> {
        let node = match self.soon.pop() {
            Some(node) => node,
            None => self.later.pop()?,
        };
        let at = node as usize;
        if at < self.inside.len() {
            self.inside[at] = false;
        }
        if at < self.waits.len() && self.waits[at] {
            self.waits[at] = false;
            return Some((node, true));
        }
        Some((node, false))
    }

    /// The nodes of a cluster that is looked at now wait no longer.
    pub(crate) fn see(&mut self, cluster: &NodeSet) {
        let large = cluster.len() > SMALL;
        for node in cluster.as_slice() {
            let at = *node as usize;
            if at < self.waits.len() {
                self.waits[at] = false;
            }
            if at < self.large.len() {
                self.large[at] = large;
            }
        }
    }
}
