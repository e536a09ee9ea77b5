//! Parts of a text.

ghost use Rattle.std.specs.Prelude.{◌≡◌};

use std::marker::Model;

/// A run of bytes of a text, which contracts see as a list of bytes.
#[derive(Drop)]
pub struct Part<'a> {
    bytes: &'a [u8],
}

impl<'a> Model for Part<'a> {
    ghost use Rattle.std.specs.Prelude.{List, ℕ};

    ghost Value = { List ℕ };

    ghost view = { λ s. s.bytes.now };
}

impl<'a> Part<'a> {
    pub fn new(bytes: &'a [u8]) -> Part<'a>
        ensures { result ≡ bytes.now }
    {
        Part { bytes }
    }

    pub fn bytes(&self) -> &'a [u8]
        ensures { result.now ≡ self.now }
    {
        self.bytes
    }
}
