//! A run of bytes of the crate's own over a `Vec`.

ghost use Rattle.std.specs.Prelude.{◌≡◌, IfOk};

use std::alloc::{AllocError, Global};
use std::marker::Model;

/// A name, which contracts see as a list of bytes.
#[derive(Drop)]
pub struct Name {
    vec: Vec<u8>,
}

impl Model for Name {
    ghost use Rattle.std.specs.Prelude.{List, ℕ};

    ghost Value = { List ℕ };

    ghost view = { λ s. s.vec.items };
}

impl Name {
    pub fn from_vec(vec: Vec<u8>) -> Name
        ensures { result ≡ vec.items }
    {
        Name { vec }
    }

    pub fn from_slice(alloc: Global, bytes: &[u8]) -> Result<Name, AllocError>
        ensures { IfOk result (λ name. name ≡ bytes.now) }
    {
        let vec = Vec::from_slice(alloc, bytes)?;
        Ok(Name { vec })
    }

    pub fn bytes(&self) -> &[u8]
        ensures { result.now ≡ self.now }
    {
        self.vec.as_slice()
    }
}
