//! What leads from definitions to the definitions that they read: a graph that nothing is proved of.

use crate::driven::is_driven_at;
use mp_program::{Branch, ExprKind, FormKind, Program};
use std::alloc::{AllocError, Global};

/// A graph, by linked lists of edges. Nodes are numbered from 0: the definitions, the expressions, the forms, and the
/// branches. Edges are numbered from 1.
#[derive(Drop)]
pub struct Graph {
    exprs: usize,
    forms: usize,
    first: Vec<usize>,
    next: Vec<usize>,
    to: Vec<usize>,
}

// The entry at an index, 0 past the end.
pub(crate) fn get(entries: &Vec<usize>, index: usize) -> usize {
    if index < entries.len() {
        entries[index]
    } else {
        0
    }
}

// Writes the entry at an index, if there is one.
pub(crate) fn put(entries: &mut Vec<usize>, index: usize, entry: usize) {
    if index < entries.len() {
        entries[index] = entry;
    }
}

// The definition that an expression names or a form sets, by the list of these; 0 past its end.
fn meant(meanings: &[u32], index: usize) -> usize {
    if index < meanings.len() {
        meanings[index] as usize
    } else {
        0
    }
}

impl Graph {
    /// The graph of a program, by the indices of the definitions that its expressions name and that its forms set. A
    /// definition leads to the `setq` forms of it, a `setq` to its value and to what stands around it, what stands in
    /// a branch to that branch, a branch to its guard, the branch before it and what stands around its `cond`, and an
    /// expression to its arguments or to the driven definition that it names.
    ///
    /// # Errors
    /// Want of memory.
    pub fn new(
        alloc: Global,
        program: &Program,
        named: &[u32],
        targets: &[u32],
    ) -> Result<Graph, AllocError> {
        let exprs = program.defs.len();
        let forms = exprs.saturating_add(program.exprs.len());
        let nodes = forms.saturating_add(program.forms.len());
        let mut graph = Graph {
            exprs,
            forms,
            first: Vec::from_elem(alloc, 0, nodes)?,
            next: Vec::new(alloc),
            to: Vec::new(alloc),
        };
        graph.link_exprs(program, named)?;
        graph.link_forms(program, targets)?;
        Ok(graph)
    }

    pub(crate) fn nodes(&self) -> usize {
        self.first.len()
    }

    pub(crate) fn edges(&self) -> usize {
        self.to.len()
    }

    // The first edge of a node, 0 where it has none.
    pub(crate) fn first(&self, node: usize) -> usize {
        get(&self.first, node)
    }

    // The edge behind an edge of a node, 0 where it is the last.
    pub(crate) fn next(&self, edge: usize) -> usize {
        get(&self.next, edge.saturating_sub(1))
    }

    // Where an edge leads.
    pub(crate) fn to(&self, edge: usize) -> usize {
        get(&self.to, edge.saturating_sub(1))
    }

    fn link(&mut self, from: usize, to: usize) -> Result<(), AllocError> {
        self.next.push(get(&self.first, from))?;
        self.to.push(to)?;
        let edge = self.to.len();
        put(&mut self.first, from, edge);
        Ok(())
    }

    fn expr(&self, index: u32) -> usize {
        self.exprs.saturating_add(index as usize)
    }

    fn form(&self, index: u32) -> usize {
        self.forms.saturating_add(index as usize)
    }

    fn link_exprs(&mut self, program: &Program, named: &[u32]) -> Result<(), AllocError> {
        for (n, expr) in program.exprs.as_slice().iter().enumerate() {
            let node = self.exprs.saturating_add(n);
            match &expr.kind {
                ExprKind::Named(_) => {
                    let d = meant(named, n);
                    if is_driven_at(program, d) {
                        self.link(node, d)?;
                    }
                }
                ExprKind::Apply { args, .. } => self.link_args(node, args.as_slice())?,
                _ => {}
            }
        }
        Ok(())
    }

    fn link_args(&mut self, node: usize, args: &[u32]) -> Result<(), AllocError> {
        for arg in args {
            let arg = self.expr(*arg);
            self.link(node, arg)?;
        }
        Ok(())
    }

    fn link_forms(&mut self, program: &Program, targets: &[u32]) -> Result<(), AllocError> {
        for (n, form) in program.forms.as_slice().iter().enumerate() {
            let node = self.forms.saturating_add(n);
            match &form.kind {
                FormKind::Set { value, .. } => {
                    let value = self.expr(*value);
                    self.link(node, value)?;
                    self.link(meant(targets, n), node)?;
                }
                FormKind::Cond(branches) => self.link_branches(node, branches.as_slice())?,
                FormKind::Par(forms) => self.link_body(node, forms.as_slice())?,
                _ => {}
            }
        }
        Ok(())
    }

    fn link_branches(&mut self, cond: usize, branches: &[Branch]) -> Result<(), AllocError> {
        let mut around = cond;
        for branch in branches {
            let node = self.first.len();
            self.first.push(0)?;
            let guard = self.expr(branch.guard);
            self.link(node, guard)?;
            self.link(node, around)?;
            self.link_body(node, branch.body.as_slice())?;
            around = node;
        }
        Ok(())
    }

    fn link_body(&mut self, around: usize, body: &[u32]) -> Result<(), AllocError> {
        for form in body {
            let form = self.form(*form);
            self.link(form, around)?;
        }
        Ok(())
    }
}
