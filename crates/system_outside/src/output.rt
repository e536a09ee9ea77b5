//! An output of the system.

ghost use Rattle.std.specs.Prelude.{◌≡◌, ◌<◌, ◌≤◌, None, OnOk, IfOk, take};
ghost use Rattle.std.specs.Io.KnownBytes.{Appends, Keeps};
ghost use Rattle.outside.specs.Outside.{HasCause, Gains};
ghost use Rattle.outside.specs.Piece.{TakesPiece};
ghost use Rattle.system_outside.specs.Told.{told_over};

use outside::{Failed, Sink};
use std::io::Write;

const ROOM: usize = 4096;

/// An output over any writer, to which full rooms are given, and the rest at the end: a call of the system for each
/// line would cost more than the line. While no call has failed it tells what the writer tells, and what the room holds.
#[derive(Drop)]
pub struct OutSink<W> {
    inner: W,
    faults: u64,
    room: [u8; 4096],
    used: usize,
    ghost within: { used < 4096 },
}

impl<W: Write> OutSink<W> {
    /// The writer, to which nothing was given yet.
    pub fn new(inner: W) -> Self
        ensures faults { result.faults ≡ 0 }
        ensures told { told_over (W.contents result.inner) result.room result.used result.faults ≡ W.contents inner }
    {
        OutSink {
            inner,
            faults: 0,
            room: [0; 4096],
            used: 0,
        }
    }

    // Gives out the first bytes of the room, which is then free.
    fn give_out(&mut self, size: usize) -> Result<(), Failed>
        requires { size ≤ 4096 }
        ensures cause { HasCause self.old.faults self.new.faults result }
        ensures used { self.new.used ≡ 0 }
        ensures given { OnOk result
            (Appends (W.contents self.old.inner) (W.contents self.new.inner) (take size self.old.room)) }
    {
        self.used = 0;
        match self.inner.write_all(&self.room[..size]) {
            Ok(()) => Ok(()),
            Err(_) => {
                self.faults = self.faults.saturating_add(1);
                Err(Failed)
            }
        }
    }

    /// Gives out what was kept back: the writer then holds what was told.
    pub fn flush(&mut self) -> Result<(), Failed>
        ensures cause { HasCause self.old.faults self.new.faults result }
        ensures given { OnOk result
            (Keeps (told_over (W.contents self.old.inner) self.old.room self.old.used self.old.faults)
            (W.contents self.new.inner)) }
    {
        self.give_out(self.used)
    }
}

impl<W: Write> Sink for OutSink<W> {
    ghost held = { λ s. None };

    ghost faults = { λ s. s.faults };

    fn write(&mut self, bytes: &[u8]) -> Result<usize, Failed>
        ensures taken { TakesPiece Gains None None bytes.now result }
        ensures cause { HasCause self.old.faults self.new.faults result }
        ensures told { IfOk result (λ n.
            Appends (told_over (W.contents self.old.inner) self.old.room self.old.used self.old.faults)
            (told_over (W.contents self.new.inner) self.new.room self.new.used self.new.faults) (take n bytes.now)) }
    {
        let used = self.used;
        let count = bytes.len().min(ROOM - used);
        let end = used + count;
        self.room[used..end].copy_from_slice(&bytes[..count]);
        if end < ROOM {
            self.used = end;
            return Ok(count);
        }
        match self.give_out(end) {
            Ok(()) => Ok(count),
            Err(Failed) => Err(Failed),
        }
    }
}
