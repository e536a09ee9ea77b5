//! A log of what files were set to and what they gained. Its names and texts are parts of one run of bytes.

ghost use Rattle.std.specs.Prelude.{◌≡◌, ◌≤◌, ◌+◌, ◌++◌, ℕ, List, [], ◌∷◌, length, take, IfSome, IfNone, None};
ghost use Rattle.std.specs.Prelude.{true, vec_len, vec_capacity, if◌then◌else◌};
ghost use Rattle.std.specs.FinMap as map;
ghost use Rattle.outside.specs.Outside.{GivesPiece};
ghost use Rattle.outside_doubles.specs.QuietLog.{part_of, is_part, are_parts, files_in};
ghost use Rattle.outside_doubles.specs.QuietReading.{HasRead};

use crate::quiet_sink::push_reserved;

/// A part of the bytes.
#[derive(Clone, Copy)]
pub(crate) struct Part {
    pub(crate) start: usize,
    pub(crate) end: usize,
}

/// A file is set to a text, or gains it.
#[derive(Clone, Copy)]
pub(crate) struct Entry {
    pub(crate) name: Part,
    pub(crate) text: Part,
    pub(crate) sets: bool,
}

// How many bytes stand before the place that is read, and how many were read.
#[derive(Clone, Copy)]
struct Cursor {
    skip: u64,
    count: usize,
}

/// Puts bytes at the end of others that have room for them, and gives the part that they are.
pub(crate) fn push_part(bytes: &mut Vec<u8>, text: &[u8]) -> Part
    requires { vec_len bytes.old + length text.now ≤ vec_capacity bytes.old }
    ensures items { bytes.new.items ≡ bytes.old.items ++ text.now }
    ensures capacity { vec_capacity bytes.old ≤ vec_capacity bytes.new }
    ensures start { result.start ≡ length bytes.old.items }
    ensures end { result.end ≡ length bytes.new.items }
{
    let start = bytes.len();
    push_reserved(bytes, text);
    Part {
        start,
        end: bytes.len(),
    }
}

/// Puts an entry at the end of a log that has room for it.
pub(crate) fn push_entry(entries: &mut Vec<Entry>, entry: Entry)
    requires { vec_len entries.old + 1 ≤ vec_capacity entries.old }
    ensures items { entries.new.items ≡ entries.old.items ++ entry ∷ [] }
    ensures capacity { vec_capacity entries.old ≤ vec_capacity entries.new }
{
    let _ = entries.push(entry);
}

// The bytes of a part.
fn part_of(bytes: &[u8], part: Part) -> &[u8]
    requires { is_part (length bytes.now) part ≡ true }
    ensures { result.now ≡ part_of bytes.now part }
{
    &bytes[part.start..part.end]
}

/// A part that is the name of a file, if the file is held.
pub(crate) fn find_name(bytes: &[u8], entries: &[Entry], name: &[u8]) -> Option<Part>
    requires { are_parts (length bytes.now) entries.now ≡ true }
    ensures name { IfSome result (λ part. part_of bytes.now part ≡ name.now) }
    ensures within { IfSome result (λ part. is_part (length bytes.now) part ≡ true) }
    ensures none { IfNone result (map.get (files_in bytes.now entries.now) name.now ≡ None) }
{
    for entry in entries {
        if name == part_of(bytes, entry.name) {
            return Some(entry.name);
        }
    }
    None
}

// Where a read stands that begins anew if the file was set.
fn start_over(sets: bool, at: u64, cursor: Cursor) -> Cursor
    ensures within { result.count ≤ cursor.count }
    ensures read { (bytes buf : List ℕ) → HasRead bytes at cursor buf
        → HasRead (if sets then [] else bytes) at result buf }
{
    if sets {
        Cursor { skip: at, count: 0 }
    } else {
        cursor
    }
}

// Copies bytes into a buffer, from a place on.
fn copy_at(buf: &mut [u8], place: usize, bytes: &[u8])
    requires { place + length bytes.now ≤ length buf.old }
    ensures { take (place + length bytes.now) buf.new ≡ take place buf.old ++ bytes.now }
{
    buf[place..place + bytes.len()].copy_from_slice(bytes);
}

// Reads on at a text that stands behind what was passed so far.
fn read_on(cursor: Cursor, text: &[u8], buf: &mut [u8]) -> Cursor
    requires { cursor.count ≤ length buf.old }
    ensures within { result.count ≤ length buf.new }
    ensures read { (bytes : List ℕ) (at : ℕ) → HasRead bytes at cursor buf.old
        → HasRead (bytes ++ text.now) at result buf.new }
{
    let from = cursor.skip.min(text.len() as u64) as usize;
    let rest = &text[from..];
    let count = rest.len().min(buf.len() - cursor.count);
    copy_at(buf, cursor.count, &rest[..count]);
    Cursor {
        skip: cursor.skip - from as u64,
        count: cursor.count + count,
    }
}

/// Reads of a file, from a place on, as many bytes as fit, if the file is held.
pub(crate) fn read_held(
    bytes: &[u8],
    entries: &[Entry],
    name: &[u8],
    at: u64,
    buf: &mut [u8],
) -> Option<usize>
    requires { are_parts (length bytes.now) entries.now ≡ true }
    ensures bound { IfSome result (λ n. n ≤ length buf.new) }
    ensures piece { IfSome result (λ n. GivesPiece (map.get (files_in bytes.now entries.now) name.now) at n buf.new) }
    ensures none { IfNone result (map.get (files_in bytes.now entries.now) name.now ≡ None) }
{
    let mut held = false;
    let mut cursor = Cursor { skip: at, count: 0 };
    for entry in entries {
        if name == part_of(bytes, entry.name) {
            held = true;
            cursor = start_over(entry.sets, at, cursor);
            cursor = read_on(cursor, part_of(bytes, entry.text), buf);
        }
    }
    if held { Some(cursor.count) } else { None }
}
