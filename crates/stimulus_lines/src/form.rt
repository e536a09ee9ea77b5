//! What a line says.

ghost use Rattle.std.specs.Prelude.{◌≡◌, ◌≢◌, ℕ, ◌<◌, length, slice_index, IfOk, MatchOption};
ghost use Rattle.std.specs.List.{list_all};
ghost use Rattle.mp_base.specs.Token.{is_token};
ghost use Rattle.stimulus_lines.specs.Forms.{is_name, is_clock, IsNumber, IsWidth, IsAssignment, AreAssignments};
ghost use Rattle.stimulus_lines.specs.Forms.{IsPad, IsForm};

use crate::part::Part;
use crate::piece::Piece;
use itoa::Buffer;
use mp_base::{List, Name, Pad, is_digit, is_token};
use std::alloc::{AllocError, Global};

/// A word `NAME=N` of a clock line, and the offset at which it begins.
#[derive(Drop)]
pub struct Assignment<'a> {
    pub at: u32,
    pub name: Part<'a>,
    pub value: u64,
}

/// What a line says: a pad of the header, or the values of a clock.
#[derive(Drop)]
pub enum Form<'a> {
    Input(Pad),
    Output(Pad),
    Clock(List<Assignment<'a>>),
}

fn are_tokens(word: &[u8]) -> bool
    ensures { result ≡ list_all is_token word.now }
{
    word.iter().all(|byte| is_token(*byte))
}

fn is_name(word: &[u8]) -> bool
    ensures { result ≡ is_name word.now }
{
    !word.is_empty() && are_tokens(word)
}

/// The number of 1 to 20 digits, if they are that and it is below 2^64.
fn number(digits: &[u8]) -> Option<u64>
    ensures { MatchOption result ((n : ℕ) → ¬ IsNumber digits.now n) (IsNumber digits.now) }
{
    if digits.is_empty() || digits.len() > 20 {
        return None;
    }
    let mut number: u64 = 0;
    for digit in digits {
        if !is_digit(*digit) {
            return None;
        }
        number = number.checked_mul(10)?.checked_add((*digit - b'0') as u64)?;
    }
    Some(number)
}

/// The number of bits that a word of a header says, from 1 to 64.
fn width(word: &[u8]) -> Option<u8>
    ensures { MatchOption result ((n : ℕ) → ¬ IsWidth word.now n) (IsWidth word.now) }
{
    let bits = number(word)?;
    let mut buffer = Buffer::new();
    if bits < 1 || bits > 64 || buffer.format(bits).as_bytes() != word {
        return None;
    }
    Some(bits as u8)
}

/// The place of the last `=`.
fn last_equals(word: &[u8]) -> Option<usize>
    ensures { MatchOption result ((k : ℕ) → k < length word.now → slice_index word.now k ≢ 61)
        (λ i. (i < length word.now) × (slice_index word.now i ≡ 61)
        × ((k : ℕ) → i < k → k < length word.now → slice_index word.now k ≢ 61)) }
{
    for i in (0..word.len()).rev() {
        if word[i] == b'=' {
            return Some(i);
        }
    }
    None
}

fn read_assignment<'a>(word: &Piece<'a>) -> Option<Assignment<'a>>
    ensures { MatchOption result ((a : Assignment) → ¬ IsAssignment word.now a) (IsAssignment word.now) }
{
    let bytes = word.bytes.bytes();
    let Some(equals) = last_equals(bytes) else {
        return None;
    };
    let name = &bytes[..equals];
    let Some(value) = number(&bytes[equals + 1..]) else {
        return None;
    };
    if !is_name(name) {
        return None;
    }
    Some(Assignment {
        at: word.at,
        name: Part::new(name),
        value,
    })
}

fn read_assignments<'a>(
    alloc: Global,
    words: &[Piece<'a>],
) -> Result<Option<List<Assignment<'a>>>, AllocError>
    ensures { IfOk result (λ found.
        MatchOption found ((xs : List Assignment) → ¬ AreAssignments words.now xs) (AreAssignments words.now)) }
{
    let mut all = List::new(alloc);
    for word in words {
        let Some(one) = read_assignment(word) else {
            return Ok(None);
        };
        all.push(one)?;
    }
    Ok(Some(all))
}

/// The pad that the words behind `in` or `out` say.
fn read_pad(alloc: Global, words: &[Piece]) -> Result<Option<Pad>, AllocError>
    ensures { IfOk result (λ found. MatchOption found ((p : Pad) → ¬ IsPad words.now p) (IsPad words.now)) }
{
    let (name, width) = match words {
        [name] => (name, 0),
        [name, bits] => match width(bits.bytes.bytes()) {
            Some(width) => (name, width),
            None => return Ok(None),
        },
        _ => return Ok(None),
    };
    if !is_name(name.bytes.bytes()) {
        return Ok(None);
    }
    Ok(Some(Pad {
        name: Name::from_slice(alloc, name.bytes.bytes())?,
        width,
    }))
}

/// Whether this is a clock line, by its first word.
pub fn is_clock(words: &[Piece]) -> bool
    ensures { result ≡ is_clock words.now }
{
    match words {
        [] => false,
        [first, ..] => first.bytes.bytes() == b"clock".as_slice(),
    }
}

/// What a line of these words says, if it is in one of the forms.
pub fn read_form<'a>(alloc: Global, words: &[Piece<'a>]) -> Result<Option<Form<'a>>, AllocError>
    ensures { IfOk result (λ found. MatchOption found ((f : Form) → ¬ IsForm words.now f) (IsForm words.now)) }
{
    let [first, rest @ ..] = words else {
        return Ok(None);
    };
    match first.bytes.bytes() {
        b"in" => match read_pad(alloc, rest)? {
            Some(pad) => Ok(Some(Form::Input(pad))),
            None => Ok(None),
        },
        b"out" => match read_pad(alloc, rest)? {
            Some(pad) => Ok(Some(Form::Output(pad))),
            None => Ok(None),
        },
        b"clock" => match read_assignments(alloc, rest)? {
            Some(words) => Ok(Some(Form::Clock(words))),
            None => Ok(None),
        },
        _ => Ok(None),
    }
}
