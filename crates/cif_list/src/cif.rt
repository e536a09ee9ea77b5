//! The commands of a file.

ghost use Rattle.std.specs.Prelude.{◌≡◌, ◌<◌, [], ◌∷◌, ◌++◌, OnOk, OnErr, Some, length, slice_get};
ghost use Rattle.cif_form.specs.Fits.{Fits};
ghost use Rattle.cif_list.specs.Showing.{item_shown};

use crate::arena::push;
use crate::store::{Head, Store};
use crate::view::ItemView;
use cif_form::Command;
use mp_base::NoMemory;
use std::alloc::Global;
use std::marker::Model;
use std::mem::size_of;

/// A command, and the offset of its first byte in the file.
#[derive(Clone, Copy, Drop)]
pub(crate) struct Entry {
    pub offset: u32,
    pub head: Head,
}

const _: () = prove!(size_of::<Entry>() == 16);

/// The commands of a file, in its order, which contracts see as a list of items.
#[derive(Drop)]
pub struct Cif {
    entries: Vec<Entry>,
    store: Store,
}

impl Model for Cif {
    ghost use Rattle.std.specs.Prelude.{List, All, map};
    ghost use Rattle.cif_form.specs.declared.command.Item.{Item};

    ghost Value = { List Item };

    ghost use Rattle.cif_list.specs.Storing.{IsHeld};
    ghost use Rattle.cif_list.specs.Entries.{item_of};

    ghost view = { λ c. map (item_of c.store) c.entries.items };

    ghost invariant = { λ c. All (λ e. IsHeld c.store e.head) c.entries.items };
}

impl Cif {
    pub fn new(alloc: Global) -> Cif
        ensures { result ≡ [] }
    {
        Cif {
            entries: Vec::new(alloc),
            store: Store::new(alloc),
        }
    }

    /// How many commands there are.
    pub fn len(&self) -> usize
        ensures { result ≡ length self.now }
    {
        self.entries.len()
    }

    /// Adds a copy of a command. `NoMemory`, which leaves the list as it was, is also for an offset of 2^32 or more,
    /// and for what would make 2^32 of one kind of part: points, turns, bytes, boxes and so on.
    pub fn push(&mut self, offset: u64, command: &Command) -> Result<(), NoMemory>
        requires { Fits command.now }
        ensures ok { OnOk result (self.new ≡ self.old ++ record { offset = offset; command = command.now } ∷ []) }
        ensures err { OnErr result (self.new ≡ self.old) }
    {
        if offset > u32::MAX as u64 {
            return Err(NoMemory);
        }
        let head = self.store.put(command)?;
        let offset = offset as u32;
        push(&mut self.entries, Entry { offset, head })?;
        Ok(())
    }

    /// The command at an index.
    pub fn at(&self, index: usize) -> ItemView<'_>
        requires { index < length self.now }
        ensures { slice_get self.now index ≡ Some (item_shown result) }
    {
        let entry = self.entries[index];
        ItemView {
            offset: entry.offset as u64,
            command: self.store.view(entry.head),
        }
    }
}
