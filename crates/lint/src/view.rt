//! A program as it is written, and what its names mean.

use mp_program::Way;
use mp_written::{Def, Program, What};
use std::alloc::{AllocError, Global};
use std::collections::{BTreeMap, BTreeSet};
use written_meanings::{Meaning, Meanings, meanings_of};

/// A program as it is written, and what its names and expressions mean.
#[derive(Drop)]
pub(crate) struct View<'a> {
    pub program: &'a Program,
    pub meanings: Meanings,
    defs: BTreeMap<&'a [u8], &'a Def>,
    processes: BTreeSet<&'a [u8]>,
}

/// Whether a definition is a function.
pub(crate) fn is_function(def: &Def) -> bool {
    match &def.what {
        What::Function { .. } => true,
        _ => false,
    }
}

/// What has a name, with its article.
pub(crate) fn def_text(def: &Def) -> &'static str {
    match &def.what {
        What::Constant(_) => "a constant",
        What::Register => "a register",
        What::Flag => "a flag",
        What::Port(Way::Input) => "an input port",
        What::Port(Way::Output) => "an output port",
        What::Port(Way::Internal) => "an internal port",
        What::Signal(Way::Input) => "an input signal",
        What::Signal(Way::Output) => "an output signal",
        What::Signal(Way::Internal) => "an internal signal",
        What::Function { .. } => "a function",
        _ => "a supply",
    }
}

// The first definition of each name.
fn defs_of<'a>(
    alloc: Global,
    program: &'a Program,
) -> Result<BTreeMap<&'a [u8], &'a Def>, AllocError> {
    let mut defs = BTreeMap::new(alloc);
    for def in program.defs.as_slice() {
        let name = def.name.bytes();
        if !defs.contains_key(name) {
            defs.insert(name, def)?;
        }
    }
    Ok(defs)
}

fn processes_of<'a>(alloc: Global, program: &'a Program) -> Result<BTreeSet<&'a [u8]>, AllocError> {
    let mut names = BTreeSet::new(alloc);
    for process in program.processes.as_slice() {
        names.insert(process.name.bytes())?;
    }
    Ok(names)
}

impl<'a> View<'a> {
    /// What the names and expressions of a program mean.
    ///
    /// # Errors
    /// Want of memory.
    pub fn of(alloc: Global, program: &'a Program) -> Result<View<'a>, AllocError> {
        Ok(View {
            program,
            meanings: meanings_of(alloc, program)?,
            defs: defs_of(alloc, program)?,
            processes: processes_of(alloc, program)?,
        })
    }

    /// What defines a name first, if anything does.
    pub fn known(&self, name: &[u8]) -> Option<&'a Def> {
        self.defs.get(name).copied()
    }

    pub fn is_process(&self, name: &[u8]) -> bool {
        self.processes.contains(name)
    }

    /// What an expression means.
    pub fn meaning(&self, expr: usize) -> Option<Meaning> {
        self.meanings.exprs.as_slice().get(expr).copied()
    }

    /// Whether an expression is an argument of the body around it.
    pub fn is_argument(&self, expr: usize) -> bool {
        match self.meaning(expr) {
            Some(meaning) => meaning.argument.is_some(),
            None => false,
        }
    }
}
