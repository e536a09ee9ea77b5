//! Names that are met again. Each is compared by its bytes where it is written, and from then on by where it stands.

ghost use Rattle.std.specs.Prelude.{◌≡◌, ◌↔◌, ◌⊎◌, ◌++◌, ◌∷◌, [], ℕ, IsTrue, Some, IfOk, OnOk};
ghost use Rattle.std.specs.BTreeMap.{get};
ghost use Rattle.std.specs.Ordering.{nat_cmp};
ghost use Rattle.std.specs.Bool.{OnTrue};
ghost use Rattle.cif_flat.specs.Naming.{naming_bytes, name_of};
ghost use Rattle.cif_flat.specs.Labelling.{IsRead, AreRead, IsUserAt};
ghost use Rattle.cif_flat.specs.Walking.{IsBehind};

use crate::label::{Written, label_of};
use crate::symbol::Naming;
use crate::table::{Table, found, set};
use cif_list::Cif;
use std::alloc::{AllocError, Global};
use std::collections::HashMap;

/// A name behind a way: that of a symbol, or of a label.
#[derive(Clone, Copy, Drop)]
pub(crate) struct Step {
    pub way: usize,
    pub naming: Naming,
}

impl Step {
    /// Whether it is the same name behind the same way.
    pub(crate) fn is_same(self, other: Step) -> bool
        ensures { IsTrue result ↔ (self ≡ other) }
    {
        if self.way != other.way {
            return false;
        }
        self.naming.is_same(other.naming)
    }

    // Others may have the same, in files of more than 2^32 commands.
    fn key(self) -> u64 {
        (self.way as u64)
            .wrapping_mul(1 << 32)
            .wrapping_add(self.naming.item as u64)
    }
}

/// Where each name of a symbol or a label was written first, by its bytes; what the user commands are that were read,
/// by index; the ways, each behind an earlier one, with way n + 1 at index n, and way 0 that of the top level; the
/// indices of ways, by the keys of their steps; and the names of labels that were found to be repeated, by their keys.
#[derive(Drop)]
pub(crate) struct Names {
    pub first: HashMap<Vec<u8>, Naming>,
    pub read: Table<Option<Written>>,
    pub ways: Vec<Step>,
    pub steps: Table<usize>,
    pub repeated: Table<Step>,
}

impl Names {
    /// None yet.
    pub(crate) fn new(alloc: Global) -> Names
        ensures read { result.read.entries ≡ [] }
        ensures ways { result.ways.items ≡ [] }
        ensures repeated { result.repeated.entries ≡ [] }
    {
        Names {
            first: HashMap::new(alloc),
            read: Table::new(alloc),
            ways: Vec::new(alloc),
            steps: Table::new(alloc),
            repeated: Table::new(alloc),
        }
    }

    /// Where the name was written first that stands there.
    fn first_of(&mut self, alloc: Global, items: &Cif, naming: Naming) -> Result<Naming, AllocError>
        ensures same { IfOk result (λ n. naming_bytes items.now n ≡ naming_bytes items.now naming) }
        ensures kept { OnOk result (self.new ≡ record self.old { first = self.new.first }) }
    {
        let name = naming.bytes(items);
        if let Some(first) = self.first.get(name) {
            let first = *first;
            if first.bytes(items) == name {
                return Ok(first);
            }
        }
        let name = Vec::from_slice(alloc, name)?;
        self.first.insert(name, naming)?;
        Ok(naming)
    }

    /// Where the name of a symbol was written first, if it has one.
    pub(crate) fn first_named(
        &mut self,
        alloc: Global,
        items: &Cif,
        named: Option<Naming>,
    ) -> Result<Option<Naming>, AllocError>
        ensures same { IfOk result (λ n. name_of items.now n ≡ name_of items.now named) }
        ensures kept { OnOk result (self.new ≡ record self.old { first = self.new.first }) }
    {
        let Some(naming) = named else {
            return Ok(None);
        };
        let first = self.first_of(alloc, items, naming)?;
        Ok(Some(first))
    }

    // The label of a user command, by where its name was written first.
    fn label_at(
        &mut self,
        alloc: Global,
        items: &Cif,
        at: usize,
        text: &[u8],
    ) -> Result<Option<Written>, AllocError>
        requires { IsUserAt items.now at text.now }
        ensures is { IfOk result (IsRead items.now text.now) }
        ensures kept { OnOk result (self.new ≡ record self.old { first = self.new.first }) }
    {
        let Some(written) = label_of(at, text) else {
            return Ok(None);
        };
        let named = self.first_of(alloc, items, written.named)?;
        Ok(Some(Written {
            named,
            x: written.x,
            y: written.y,
            layer: written.layer,
        }))
    }

    /// The label of the user command at an index, if it is one, read anew only where it wasn't before.
    pub(crate) fn label(
        &mut self,
        alloc: Global,
        items: &Cif,
        at: usize,
        text: &[u8],
    ) -> Result<Option<Written>, AllocError>
        requires at { IsUserAt items.now at text.now }
        requires read { AreRead items.now self.old.read }
        ensures is { IfOk result (IsRead items.now text.now) }
        ensures read { OnOk result (AreRead items.now self.new.read) }
        ensures kept { OnOk result (self.new ≡ record self.old { first = self.new.first; read = self.new.read }) }
    {
        if let Some(label) = found(&self.read, at as u64) {
            return Ok(label);
        }
        let label = self.label_at(alloc, items, at, text)?;
        set(&mut self.read, at as u64, label)?;
        Ok(label)
    }

    /// The way behind a way and a name, where both are.
    pub(crate) fn way_behind(
        &mut self,
        way: Option<usize>,
        named: Option<Naming>,
    ) -> Result<Option<usize>, AllocError>
        ensures behind { IfOk result (IsBehind self.old.ways.items self.new.ways.items way named) }
        ensures kept { OnOk result (self.new ≡ record self.old { ways = self.new.ways; steps = self.new.steps }) }
    {
        let Some(way) = way else {
            return Ok(None);
        };
        let Some(naming) = named else {
            return Ok(None);
        };
        let step = Step { way, naming };
        let key = step.key();
        if let Some(index) = found(&self.steps, key) {
            if index < self.ways.len() {
                if self.ways[index].is_same(step) {
                    return Ok(Some(index + 1));
                }
            }
        }
        set(&mut self.steps, key, self.ways.len())?;
        self.ways.push(step)?;
        Ok(Some(self.ways.len()))
    }

    /// Whether a label was found to be repeated.
    pub(crate) fn is_repeated(&self, step: Step) -> bool
        ensures { OnTrue result ((k : ℕ) × (get nat_cmp self.now.repeated k ≡ Some step)) }
    {
        let Some(noted) = found(&self.repeated, step.key()) else {
            return false;
        };
        noted.is_same(step)
    }

    /// Notes that a label is repeated.
    pub(crate) fn repeat(&mut self, step: Step) -> Result<(), AllocError>
        ensures kept { OnOk result (self.new ≡ record self.old { repeated = self.new.repeated }) }
        ensures noted { OnOk result ((k : ℕ) (s : Step) → get nat_cmp self.new.repeated k ≡ Some s
            → (s ≡ step) ⊎ (get nat_cmp self.old.repeated k ≡ Some s)) }
    {
        set(&mut self.repeated, step.key(), step)?;
        Ok(())
    }
}
