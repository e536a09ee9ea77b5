//! Texts in memory.

ghost use Rattle.std.specs.Prelude.{◌≡◌, [], Some};
ghost use Rattle.outside.specs.Outside.{Gains, HasCause};
ghost use Rattle.outside.specs.Piece.{TakesPiece};

use outside::{Failed, Sink};
use std::alloc::Global;

/// A text in memory, as an output. A write fails only for want of memory.
#[derive(Drop)]
pub struct Text {
    pub bytes: Vec<u8>,
    faults: u64,
}

impl Text {
    pub fn new(alloc: Global) -> Text
        ensures { result.bytes.items ≡ [] }
    {
        Text {
            bytes: Vec::new(alloc),
            faults: 0,
        }
    }
}

impl Sink for Text {
    ghost use Rattle.std.specs.Prelude.{Some};

    ghost held = { λ s. Some s.bytes.items };

    ghost faults = { λ s. s.faults };

    fn write(&mut self, bytes: &[u8]) -> Result<usize, Failed>
        ensures taken { TakesPiece Gains (Some self.old.bytes.items) (Some self.new.bytes.items) bytes.now result }
        ensures cause { HasCause self.old.faults self.new.faults result }
    {
        match self.bytes.extend_from_slice(bytes) {
            Ok(()) => Ok(bytes.len()),
            Err(_) => {
                self.faults = self.faults.saturating_add(1);
                Err(Failed)
            }
        }
    }
}
