//! Lines, and their words.

ghost use Rattle.std.specs.Prelude.{◌≡◌, ℕ, ◌+◌, ◌<◌, ◌≤◌, ◌^◌, true, false, cond, nat_lt, length, slice_index};
ghost use Rattle.std.specs.Prelude.{slice_range, OnOk};
ghost use Rattle.std.specs.Str.Lines.{strip_carriage_return};
ghost use Rattle.stimulus_lines.specs.Words.{is_blank, is_skipped, words_of};
ghost use Rattle.mp_base.specs.Lines.{is_feed};

use crate::part::Part;
use std::alloc::AllocError;

/// A part of a text, and the offset at which it begins.
#[derive(Drop)]
pub struct Piece<'a> {
    pub at: u32,
    pub bytes: Part<'a>,
}

fn is_blank(byte: u8) -> bool
    ensures { result ≡ is_blank byte }
{
    byte == b' ' || byte == b'\t'
}

/// Where the part without blanks ends that begins here.
fn word_end(line: &[u8], from: usize) -> usize
    requires { from ≤ length line.now }
    ensures after { from ≤ result }
    ensures within { result ≤ length line.now }
    ensures part { (k : ℕ) → from ≤ k → k < result → is_blank (slice_index line.now k) ≡ false }
    ensures stop { result < length line.now → is_blank (slice_index line.now result) ≡ true }
{
    for i in from..line.len() {
        if is_blank(line[i]) {
            return i;
        }
    }
    line.len()
}

/// Puts the words of a line that begins at this offset of its text in the place of those that were there.
pub fn take_words<'a>(words: &mut Vec<Piece<'a>>, line: &'a [u8], at: u32) -> Result<(), AllocError>
    requires { at + length line.now < 2 ^ 32 }
    ensures { OnOk result (words.new.items ≡ words_of at line.now) }
{
    words.clear();
    let mut start = 0;
    'parts: loop {
        let end = word_end(line, start);
        if start < end {
            words.push(Piece {
                at: at + start as u32,
                bytes: Part::new(&line[start..end]),
            })?;
        }
        if end == line.len() {
            return Ok(());
        }
        start = end + 1;
    }
}

/// Whether a line says nothing: it has no words, or begins with `;`.
pub fn is_skipped(words: &[Piece]) -> bool
    ensures { result ≡ is_skipped words.now }
{
    match words {
        [] => true,
        [first, ..] => first.bytes.bytes().first() == Some(&b';'),
    }
}

/// Where the line ends that begins here, without its line feed.
pub fn line_end(text: &[u8], from: usize) -> usize
    requires { from ≤ length text.now }
    ensures after { from ≤ result }
    ensures within { result ≤ length text.now }
    ensures part { (k : ℕ) → from ≤ k → k < result → is_feed (slice_index text.now k) ≡ false }
    ensures stop { result < length text.now → is_feed (slice_index text.now result) ≡ true }
{
    for i in from..text.len() {
        if text[i] == b'\n' {
            return i;
        }
    }
    text.len()
}

// A line without a carriage return at its end.
fn without_return(line: &[u8]) -> &[u8]
    ensures { result.now ≡ strip_carriage_return line.now }
{
    let len = line.len();
    if len > 0 && line[len - 1] == b'\r' {
        &line[..len - 1]
    } else {
        line
    }
}

/// The line from its start to its end, without a carriage return before its line feed.
pub fn line_at(text: &[u8], start: usize, end: usize) -> &[u8]
    requires order { start ≤ end }
    requires within { end ≤ length text.now }
    ensures { result.now ≡ cond (nat_lt end (length text.now)) (strip_carriage_return (slice_range text.now start end))
        (slice_range text.now start end) }
{
    let line = &text[start..end];
    if end < text.len() {
        without_return(line)
    } else {
        line
    }
}
