//! Gaps, runs of token characters, numerals and places.

ghost use Rattle.std.specs.Prelude.{◌≡◌, ℕ, ◌+◌, ◌<◌, ◌≤◌, ◌^◌, [], ◌∷◌, ◌++◌, ◌||◌, true, false, length, drop};
ghost use Rattle.std.specs.Prelude.{slice_index, slice_range, MatchOption};
ghost use Rattle.std.specs.List.{list_all};
ghost use Rattle.std.specs.Str.Parse.{digits_value};
ghost use Rattle.mp_base.specs.Token.{is_digit, is_token};
ghost use Rattle.form_reader.specs.Text.{is_blank, is_mark, comment_step, fills_gap, is_gap, IsRun, place_at};
ghost use Rattle.form_reader.specs.Rules.{E1};

use mp_base::{Place, is_digit, is_token};

/// The place of the first byte.
pub(crate) const START: Place = Place {
    offset: 0,
    line: 1,
    column: 1,
};

fn is_blank(byte: u8) -> bool
    ensures { result ≡ is_blank byte }
{
    byte == b' ' || byte == b'\t' || byte == b'\n' || byte == b'\r'
}

fn is_mark(byte: u8) -> bool
    ensures { result ≡ is_mark byte }
{
    byte == b'(' || byte == b')' || byte == b';'
}

fn is_known(byte: u8) -> bool
    ensures { result ≡ (is_blank byte || is_mark byte || is_token byte) }
{
    is_blank(byte) || is_mark(byte) || is_token(byte)
}

fn fills_gap(comment: bool, byte: u8) -> bool
    ensures { result ≡ fills_gap comment byte }
{
    comment || byte == b';' || is_blank(byte)
}

/// Whether one is in a comment behind this byte.
fn comment_behind(comment: bool, byte: u8) -> bool
    ensures { result ≡ comment_step comment byte }
{
    byte != b'\n' && (comment || byte == b';')
}

/// The place behind the byte at this one.
pub(crate) fn behind(bytes: &[u8], place: Place) -> Place
    requires short { length bytes.now + 1 < 2 ^ 32 }
    requires within { place.offset < length bytes.now }
    requires place { place ≡ place_at bytes.now place.offset }
    ensures { result ≡ place_at bytes.now (place.offset + 1) }
{
    let Place {
        offset,
        line,
        column,
    } = place;
    if bytes[offset as usize] == b'\n' {
        Place {
            offset: offset + 1,
            line: line + 1,
            column: 1,
        }
    } else {
        Place {
            offset: offset + 1,
            line,
            column: column + 1,
        }
    }
}

/// Where the gap that begins here ends.
pub(crate) fn skip(bytes: &[u8], from: Place) -> Place
    requires short { length bytes.now + 1 < 2 ^ 32 }
    requires within { from.offset ≤ length bytes.now }
    requires place { from ≡ place_at bytes.now from.offset }
    ensures place { result ≡ place_at bytes.now result.offset }
    ensures after { from.offset ≤ result.offset }
    ensures within { result.offset ≤ length bytes.now }
    ensures gap { result.offset < length bytes.now
        → is_gap false (slice_range bytes.now from.offset result.offset) ≡ true }
    ensures stop { result.offset < length bytes.now → fills_gap false (slice_index bytes.now result.offset) ≡ false }
    ensures rest { result.offset ≡ length bytes.now → is_gap false (drop from.offset bytes.now ++ 10 ∷ []) ≡ true }
{
    let mut comment = false;
    let mut place = from;
    for i in from.offset as usize..bytes.len() {
        let byte = bytes[i];
        if !fills_gap(comment, byte) {
            return place;
        }
        comment = comment_behind(comment, byte);
        place = behind(bytes, place);
    }
    place
}

/// Where the run of token characters that begins here ends.
pub(crate) fn run_end(bytes: &[u8], from: Place) -> Place
    requires short { length bytes.now + 1 < 2 ^ 32 }
    requires within { from.offset < length bytes.now }
    requires place { from ≡ place_at bytes.now from.offset }
    requires token { is_token (slice_index bytes.now from.offset) ≡ true }
    ensures place { result ≡ place_at bytes.now result.offset }
    ensures run { IsRun bytes.now from.offset result.offset }
{
    let mut place = from;
    for i in from.offset as usize..bytes.len() {
        if !is_token(bytes[i]) {
            return place;
        }
        place = behind(bytes, place);
    }
    place
}

pub(crate) fn all_digits(bytes: &[u8]) -> bool
    ensures { result ≡ list_all is_digit bytes.now }
{
    bytes.iter().all(|byte| is_digit(*byte))
}

/// The number of a numeral, if it is below 2^64.
pub(crate) fn number(digits: &[u8]) -> Option<u64>
    requires { list_all is_digit digits.now ≡ true }
    ensures { MatchOption result (2 ^ 64 ≤ digits_value 10 digits.now) (λ n. n ≡ digits_value 10 digits.now) }
{
    let mut number: u64 = 0;
    for digit in digits {
        let value = (*digit - b'0') as u64;
        number = number.checked_mul(10)?.checked_add(value)?;
    }
    Some(number)
}

/// The place of the first byte of a text of less than 4 GB that breaks rule E1: outside comments, and no blank,
/// bracket, `;` or token character.
pub fn find_stray(bytes: &[u8]) -> Option<Place>
    requires { length bytes.now + 1 < 2 ^ 32 }
    ensures { MatchOption result ((o : ℕ) → ¬ E1 bytes.now o) (λ at. (at ≡ place_at bytes.now at.offset)
        × E1 bytes.now at.offset × ((o : ℕ) → E1 bytes.now o → at.offset ≤ o)) }
{
    let mut comment = false;
    let mut place = START;
    for i in 0..bytes.len() {
        let byte = bytes[i];
        if !comment && !is_known(byte) {
            return Some(place);
        }
        comment = comment_behind(comment, byte);
        place = behind(bytes, place);
    }
    None
}
