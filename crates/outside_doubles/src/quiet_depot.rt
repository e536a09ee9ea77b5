//! Files in memory whose calls never fail.

ghost use Rattle.std.specs.Prelude.{◌≡◌, ◌≤◌, ◌+◌, ◌*◌, ◌++◌, ℕ, List, [], length, true, None, Ok, IsErr, OnErr};
ghost use Rattle.std.specs.Prelude.{OnOk, IfOk, IfSome, IsOk, nat_le, vec_len, vec_capacity, if◌then◌else◌, Some};
ghost use Rattle.std.specs.Option.{option_map};
ghost use Rattle.std.specs.Io.{ReadsAtMost};
ghost use Rattle.std.specs.FinMap as map;
ghost use Rattle.outside.specs.Outside.{Creates, Grows, GivesPiece, HasCause, ReadHasCause, IsStray, IsHeld, Keeps};
ghost use Rattle.outside.specs.Outside.{WhereTold, bytes_of};
ghost use Rattle.outside.specs.Piece.{TakesPiece};
ghost use Rattle.outside_doubles.specs.Quiet.{room_after, told_after};
ghost use Rattle.outside_doubles.specs.QuietLog.{are_parts, files_in};

use crate::quiet_log::{Entry, Part, find_name, push_entry, push_part, read_held};
use mp_base::NoMemory;
use outside::{Depot, Failed};
use std::alloc::Global;

/// What a `create` and an `append` take of the room, beside the bytes of the name or of the piece.
pub const CALL_COST: usize = 64;

/// Files in memory that count no fault. They are told up to the first call that doesn't fit the room.
#[derive(Drop)]
pub struct QuietDepot {
    bytes: Vec<u8>,
    log: Vec<Entry>,
    room: usize,
    telling: bool,
    ghost reserved: { vec_len bytes + room ≤ vec_capacity bytes },
    ghost entries: { 64 * vec_len log + room ≤ 64 * vec_capacity log },
    ghost parts: { are_parts (length bytes.items) log.items ≡ true },
}

// Whether a call that takes so many bytes fits the room.
fn fits(room: usize, size: usize) -> bool
    ensures { result ≡ nat_le (CALL_COST + size) room }
{
    room >= CALL_COST && room - CALL_COST >= size
}

impl QuietDepot {
    ghost use Rattle.outside_doubles.specs.QuietDepot.{files, told, room_left};

    /// No files yet, and room for calls that take so many bytes.
    pub fn new(alloc: Global, room: usize) -> Result<QuietDepot, NoMemory>
        ensures empty { IfOk result (λ depot. told depot ≡ Some map.empty) }
        ensures room { IfOk result (λ depot. room_left depot ≡ room) }
    {
        let bytes = Vec::with_capacity(alloc, room)?;
        let log = Vec::with_capacity(alloc, room / CALL_COST + 1)?;
        Ok(QuietDepot {
            bytes,
            log,
            room,
            telling: true,
        })
    }

    // Reserves memory for an entry and so many bytes, beside the room.
    fn reserve(&mut self, name: &[u8], text: &[u8]) -> Result<(), NoMemory>
        ensures bytes { self.new.bytes.items ≡ self.old.bytes.items }
        ensures log { self.new.log.items ≡ self.old.log.items }
        ensures room { self.new.room ≡ self.old.room }
        ensures telling { self.new.telling ≡ self.old.telling }
        ensures reserved { OnOk result
            (vec_len self.new.bytes + length name.now + length text.now + self.new.room ≤ vec_capacity self.new.bytes) }
        ensures entries { OnOk result
            (64 * vec_len self.new.log + 64 + self.new.room ≤ 64 * vec_capacity self.new.log) }
    {
        let count = name.len().checked_add(text.len()).ok_or(NoMemory)?;
        let all = count.checked_add(self.room).ok_or(NoMemory)?;
        self.bytes.reserve(all)?;
        self.log.reserve(self.room / CALL_COST + 2)?;
        Ok(())
    }

    /// Sets a file, in memory of its own and not in the room.
    pub fn put(&mut self, name: &str, bytes: &[u8]) -> Result<(), NoMemory>
        ensures ok { OnOk result
            (told self.new ≡ option_map (λ old. map.insert old name.now bytes.now) (told self.old)) }
        ensures err { OnErr result (told self.new ≡ told self.old) }
        ensures room { room_left self.new ≡ room_left self.old }
    {
        self.reserve(name.as_bytes(), bytes)?;
        let name = push_part(&mut self.bytes, name.as_bytes());
        let text = push_part(&mut self.bytes, bytes);
        push_entry(
            &mut self.log,
            Entry {
                name,
                text,
                sets: true,
            },
        );
        Ok(())
    }
}

impl Depot for QuietDepot {
    ghost use Rattle.outside_doubles.specs.QuietDepot.{files, told, room_left};

    ghost held = { λ depot. if depot.telling then Some (files_in depot.bytes.items depot.log.items) else None };

    ghost read_faults = { λ _. 0 };

    ghost write_faults = { λ _. 0 };

    // A file that isn't held is read as an empty one where the files are no longer told.
    fn read_at(&mut self, name: &str, at: u64, buf: &mut [u8]) -> Result<usize, Failed>
        ensures bound { ReadsAtMost result buf.new }
        ensures held { Keeps (told self.old) (told self.new) }
        ensures bytes { IfOk result (λ n. IfSome (told self.new)
            (λ files. GivesPiece (map.get files name.now) at n buf.new)) }
        ensures cause { ReadHasCause 0 0 (IsStray (told self.new) name.now) result }
        ensures stray { IsStray (told self.old) name.now → IsErr result }
        ensures untold { told self.old ≡ None → map.get (files self.old) name.now ≡ None → result ≡ Ok 0 }
        ensures same { self.new ≡ self.old }
    {
        match read_held(&self.bytes, &self.log, name.as_bytes(), at, buf) {
            Some(count) => Ok(count),
            None if self.telling => Err(Failed),
            None => Ok(0),
        }
    }

    fn create(&mut self, name: &str) -> Result<(), Failed>
        ensures ok { OnOk result (WhereTold (Creates name.now) (told self.old) (told self.new)) }
        ensures err { OnErr result (Keeps (told self.old) (told self.new)) }
        ensures cause { HasCause 0 0 result }
        ensures whole { IsOk result }
        ensures told { told self.new ≡ told_after (CALL_COST + length name.now) (room_left self.old)
            (λ old. map.insert old name.now []) (told self.old) }
        ensures room { room_left self.new ≡ room_after (CALL_COST + length name.now) (room_left self.old) }
    {
        if !fits(self.room, name.len()) {
            self.telling = false;
            return Ok(());
        }
        self.room -= CALL_COST + name.len();
        let name = push_part(&mut self.bytes, name.as_bytes());
        let text = Part {
            start: name.end,
            end: name.end,
        };
        push_entry(
            &mut self.log,
            Entry {
                name,
                text,
                sets: true,
            },
        );
        Ok(())
    }

    fn append(&mut self, name: &str, bytes: &[u8]) -> Result<usize, Failed>
        requires { IsHeld (told self.old) name.now }
        ensures taken { TakesPiece (Grows name.now) (told self.old) (told self.new) bytes.now result }
        ensures cause { HasCause 0 0 result }
        ensures whole { result ≡ Ok (length bytes.now) }
        ensures told { told self.new ≡ told_after (CALL_COST + length bytes.now) (room_left self.old)
            (λ old. map.insert old name.now (bytes_of old name.now ++ bytes.now)) (told self.old) }
        ensures room { room_left self.new ≡ room_after (CALL_COST + length bytes.now) (room_left self.old) }
    {
        if !fits(self.room, bytes.len()) {
            self.telling = false;
            return Ok(bytes.len());
        }
        self.room -= CALL_COST + bytes.len();
        if let Some(name) = find_name(&self.bytes, &self.log, name.as_bytes()) {
            let text = push_part(&mut self.bytes, bytes);
            push_entry(
                &mut self.log,
                Entry {
                    name,
                    text,
                    sets: false,
                },
            );
        }
        Ok(bytes.len())
    }
}
