//! The table of names.

ghost use Rattle.std.specs.Prelude.{◌≡◌, ℕ, List, [], IfOk, OnOk};
ghost use Rattle.name_meanings.specs.Keys.{known_in, HoldsNames};

use crate::named::Named;
use indexmap::IndexMap;
use mp_program::{Def, Process, Program};
use std::alloc::{AllocError, Global};

type Names<'a> = IndexMap<&'a [u8], Named>;

// What is known of a name.
fn known(names: &Names<'_>, name: &[u8]) -> Named
    ensures { result ≡ known_in names.now name.now }
{
    names.get(name).copied().unwrap_or(Named::none())
}

// The names of definitions. There is no room for 2^32 of these.
fn names_of_defs<'a>(alloc: Global, defs: &'a [Def]) -> Result<Names<'a>, AllocError>
    ensures { IfOk result (HoldsNames defs.now []) }
{
    let mut names = IndexMap::new(alloc);
    for (index, def) in defs.iter().enumerate() {
        let Ok(index) = u32::try_from(index) else {
            return Err(AllocError);
        };
        let name = def.name.bytes();
        let named = known(&names, name).with_def(index, def);
        names.insert(name, named)?;
    }
    Ok(names)
}

// The names of these definitions, and of processes.
fn names_of_all<'a>(
    alloc: Global,
    defs: &'a [Def],
    processes: &'a [Process],
) -> Result<Names<'a>, AllocError>
    ensures { IfOk result (HoldsNames defs.now processes.now) }
{
    let mut names = names_of_defs(alloc, defs)?;
    for process in processes {
        let name = process.name.bytes();
        let named = known(&names, name).with_process(process);
        names.insert(name, named)?;
    }
    Ok(names)
}

/// The names that a program defines, in the order in which they are first seen, and what is known of each.
#[derive(Drop)]
pub struct NameTable<'a> {
    names: Names<'a>,
    defs: u32,
}

impl<'a> NameTable<'a> {
    ghost use Rattle.name_meanings.specs.Table.{IsNameTable, known, index_in};

    /// The names of a program. Errors: want of memory, also where there are 2^32 definitions.
    pub fn of(alloc: Global, program: &'a Program) -> Result<NameTable<'a>, AllocError>
        ensures { IfOk result (IsNameTable program.now) }
    {
        let defs = program.defs.as_slice();
        let Ok(count) = u32::try_from(defs.len()) else {
            return Err(AllocError);
        };
        let names = names_of_all(alloc, defs, program.processes.as_slice())?;
        Ok(NameTable { names, defs: count })
    }

    /// What is known of a name.
    pub fn named(&self, name: &[u8]) -> Named
        ensures { result ≡ known self.now name.now }
    {
        known(&self.names, name)
    }

    /// The index of the first definition of a name, or the number of definitions where there is none.
    pub fn index_of(&self, name: &[u8]) -> u32
        ensures { result ≡ index_in self.now name.now }
    {
        self.named(name).first.unwrap_or(self.defs)
    }
}
