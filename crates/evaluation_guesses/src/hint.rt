//! Guesses, which others check: of an order, and of a closed chain.

use crate::driven::is_driven_at;
use crate::graph::{Graph, get, put};
use mp_program::Program;
use std::alloc::{AllocError, Global};

/// A rank for each definition, no lower than that of any that it reads, and the definitions that can have the same rank
/// as one of these. A definition has its rank alone, unless it is on a closed chain.
#[derive(Drop)]
pub struct Ranks {
    pub ranks: Vec<u32>,
    pub loose: Vec<u32>,
}

// A walk through a graph in depth that finds its strongly connected components.
#[derive(Drop)]
struct Walk {
    // When a node was met, from 1 on; 0 where it wasn't.
    met: Vec<usize>,
    // The earliest of the nodes on the stack that was seen from a node.
    low: Vec<usize>,
    // The edge of a node that is next.
    edge: Vec<usize>,
    // 1 where a node's component is known.
    done: Vec<usize>,
    path: Vec<usize>,
    stack: Vec<usize>,
    count: usize,
    rank: u32,
    found: Ranks,
}

fn write(numbers: &mut Vec<u32>, index: usize, number: u32) {
    if index < numbers.len() {
        numbers[index] = number;
    }
}

impl Walk {
    fn new(alloc: Global, nodes: usize, defs: usize) -> Result<Walk, AllocError> {
        Ok(Walk {
            met: Vec::from_elem(alloc, 0, nodes)?,
            low: Vec::from_elem(alloc, 0, nodes)?,
            edge: Vec::from_elem(alloc, 0, nodes)?,
            done: Vec::from_elem(alloc, 0, nodes)?,
            path: Vec::new(alloc),
            stack: Vec::new(alloc),
            count: 0,
            rank: 0,
            found: Ranks {
                ranks: Vec::from_elem(alloc, 0, defs)?,
                loose: Vec::from_elem(alloc, 0, defs)?,
            },
        })
    }

    fn enter(&mut self, graph: &Graph, node: usize) -> Result<(), AllocError> {
        self.count = self.count.saturating_add(1);
        put(&mut self.met, node, self.count);
        put(&mut self.low, node, self.count);
        put(&mut self.edge, node, graph.first(node));
        self.path.push(node)?;
        self.stack.push(node)?;
        Ok(())
    }

    fn lower(&mut self, node: usize, to: usize) {
        if to < get(&self.low, node) {
            put(&mut self.low, node, to);
        }
    }

    // Goes along an edge of the last node of the path, or back from it.
    fn step(&mut self, graph: &Graph, program: &Program, node: usize) -> Result<(), AllocError> {
        let edge = get(&self.edge, node);
        if edge == 0 {
            self.leave(program, node);
            return Ok(());
        }
        put(&mut self.edge, node, graph.next(edge));
        let to = graph.to(edge);
        if get(&self.met, to) == 0 {
            self.enter(graph, to)?;
        } else if get(&self.done, to) == 0 {
            let met = get(&self.met, to);
            self.lower(node, met);
        }
        Ok(())
    }

    fn leave(&mut self, program: &Program, node: usize) {
        let _ = self.path.pop();
        let low = get(&self.low, node);
        if let Some(before) = self.path.last() {
            let before = *before;
            self.lower(before, low);
        }
        if low == get(&self.met, node) {
            self.close(program, node);
        }
    }

    // Takes the component of a node, its first, from the stack.
    fn close(&mut self, program: &Program, first: usize) {
        let rank = self.rank.saturating_add(1);
        let loose = self.stack.last() != Some(&first);
        while let Some(node) = self.stack.pop() {
            put(&mut self.done, node, 1);
            if is_driven_at(program, node) {
                self.rank = rank;
                write(&mut self.found.ranks, node, rank);
                write(&mut self.found.loose, node, u32::from(loose));
            }
            if node == first {
                return;
            }
        }
    }
}

/// Guesses ranks.
///
/// # Errors
/// Want of memory.
pub fn guess_ranks(alloc: Global, graph: &Graph, program: &Program) -> Result<Ranks, AllocError> {
    let mut walk = Walk::new(alloc, graph.nodes(), program.defs.len())?;
    let steps = graph.nodes().saturating_add(graph.edges());
    for root in 0..graph.nodes() {
        if get(&walk.met, root) == 0 {
            walk.enter(graph, root)?;
            for _ in 0..steps {
                match walk.path.last() {
                    Some(node) => {
                        let node = *node;
                        walk.step(graph, program, node)?;
                    }
                    None => break,
                }
            }
        }
    }
    Ok(walk.found)
}

// The nodes before each node, plus 1, on ways from a node, and the last node on a way back to it.
#[derive(Drop)]
struct Ways {
    before: Vec<usize>,
    last: usize,
}

fn search_ways(alloc: Global, graph: &Graph, start: usize) -> Result<Ways, AllocError> {
    let mut before = Vec::from_elem(alloc, 0, graph.nodes())?;
    let mut queue = Vec::new(alloc);
    queue.push(start)?;
    for k in 0..graph.nodes() {
        if k >= queue.len() {
            break;
        }
        let node = queue[k];
        let mut edge = graph.first(node);
        for _ in 0..graph.edges() {
            if edge == 0 {
                break;
            }
            let to = graph.to(edge);
            if to == start {
                return Ok(Ways { before, last: node });
            }
            if get(&before, to) == 0 {
                put(&mut before, to, node.saturating_add(1));
                queue.push(to)?;
            }
            edge = graph.next(edge);
        }
    }
    Ok(Ways {
        before,
        last: start,
    })
}

/// Guesses weights by which a closed chain goes up to a definition.
///
/// # Errors
/// Want of memory.
pub fn climb(
    alloc: Global,
    graph: &Graph,
    program: &Program,
    target: u32,
) -> Result<Vec<u32>, AllocError> {
    let start = target as usize;
    let ways = search_ways(alloc, graph, start)?;
    let mut weights = Vec::from_elem(alloc, 0, program.defs.len())?;
    let mut weight = u32::MAX;
    write(&mut weights, start, weight);
    let mut node = ways.last;
    for _ in 0..graph.nodes() {
        if node == start {
            break;
        }
        if node < program.defs.len() {
            weight = weight.saturating_sub(1);
            write(&mut weights, node, weight);
        }
        node = get(&ways.before, node).saturating_sub(1);
    }
    Ok(weights)
}
