//! Names in an order, and the number of the first of each.

ghost use Rattle.std.specs.Prelude.{◌≡◌, ◌∷◌, ◌++◌, [], ℕ, List, OnOk, length};

use indexmap::IndexMap;
use std::alloc::{AllocError, Global};

/// The number of the first of each name.
#[derive(Drop)]
pub struct Firsts<'a> {
    numbers: IndexMap<&'a [u8], u32>,
}

impl<'a> Firsts<'a> {
    ghost use Rattle.written_meanings.specs.Firsts.{first_in, AreFirsts};

    pub fn new(alloc: Global) -> Firsts<'a>
        ensures { AreFirsts [] result }
    {
        Firsts {
            numbers: IndexMap::new(alloc),
        }
    }

    /// The number of the first of a name.
    pub fn number(&self, name: &[u8]) -> Option<u32>
        ensures { result ≡ first_in self.now name.now }
    {
        self.numbers.get(name).copied()
    }

    /// Notes one more name, the number of which is how many there are before it.
    pub fn note(&mut self, name: &'a [u8], number: u32) -> Result<(), AllocError>
        ensures { OnOk result ((names : List (List ℕ)) → length names ≡ number → AreFirsts names self.old
            → AreFirsts (names ++ name.now ∷ []) self.new) }
    {
        if self.number(name).is_none() {
            self.numbers.insert(name, number)?;
        }
        Ok(())
    }
}
