//! An output in memory whose calls never fail.

ghost use Rattle.std.specs.Prelude.{◌≡◌, ◌≤◌, ◌+◌, ◌++◌, ℕ, List, [], length, Some, None, Ok, IfOk, vec_len};
ghost use Rattle.std.specs.Prelude.{vec_capacity, if◌then◌else◌};
ghost use Rattle.std.specs.Option.{option_copied};
ghost use Rattle.outside.specs.Outside.{Gains, HasCause};
ghost use Rattle.outside.specs.Piece.{TakesPiece};
ghost use Rattle.outside_doubles.specs.Quiet.{room_after, told_after};

use mp_base::NoMemory;
use outside::{Failed, Sink};
use std::alloc::Global;

/// Puts bytes at the end of a text that has room for them.
pub(crate) fn push_reserved(text: &mut Vec<u8>, bytes: &[u8])
    requires { vec_len text.old + length bytes.now ≤ vec_capacity text.old }
    ensures items { text.new.items ≡ text.old.items ++ bytes.now }
    ensures capacity { vec_capacity text.old ≤ vec_capacity text.new }
{
    let _ = text.extend_from_slice(bytes);
}

/// An output in memory that counts no fault. It tells what it holds up to the first call that doesn't fit its room.
#[derive(Drop)]
pub struct QuietSink {
    bytes: Vec<u8>,
    room: usize,
    telling: bool,
    ghost reserved: { vec_len bytes + room ≤ vec_capacity bytes },
}

impl QuietSink {
    ghost use Rattle.outside_doubles.specs.QuietSink.{told, room_left};

    /// Nothing written yet, and room for so many bytes.
    pub fn new(alloc: Global, room: usize) -> Result<QuietSink, NoMemory>
        ensures empty { IfOk result (λ sink. told sink ≡ Some []) }
        ensures room { IfOk result (λ sink. room_left sink ≡ room) }
    {
        let bytes = Vec::with_capacity(alloc, room)?;
        Ok(QuietSink {
            bytes,
            room,
            telling: true,
        })
    }

    /// What was written, where the sink tells it.
    pub fn bytes(&self) -> Option<&[u8]>
        ensures { option_copied result ≡ told self.now }
    {
        if self.telling {
            Some(self.bytes.as_slice())
        } else {
            None
        }
    }
}

impl Sink for QuietSink {
    ghost use Rattle.outside_doubles.specs.QuietSink.{told, room_left};

    ghost held = { λ sink. if sink.telling then Some sink.bytes.items else None };

    ghost faults = { λ _. 0 };

    fn write(&mut self, bytes: &[u8]) -> Result<usize, Failed>
        ensures taken { TakesPiece Gains (told self.old) (told self.new) bytes.now result }
        ensures cause { HasCause 0 0 result }
        ensures whole { result ≡ Ok (length bytes.now) }
        ensures told { told self.new ≡ told_after (length bytes.now) (room_left self.old)
            (λ old. old ++ bytes.now) (told self.old) }
        ensures room { room_left self.new ≡ room_after (length bytes.now) (room_left self.old) }
    {
        if bytes.len() <= self.room {
            self.room -= bytes.len();
            push_reserved(&mut self.bytes, bytes);
        } else {
            self.telling = false;
        }
        Ok(bytes.len())
    }
}
