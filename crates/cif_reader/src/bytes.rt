//! Bytes, and runs of them.

ghost use Rattle.std.specs.Prelude.{◌≡◌, ℕ, ◌+◌, ◌<◌, ◌≤◌, length, drop, Some, None, MatchOption};
ghost use Rattle.cif_form.specs.Readers.{is_upper, is_separator, is_blank, past, past_blanks, separator_from, follows};

use mp_base::is_digit;

pub(crate) fn is_upper(byte: u8) -> bool
    ensures { result ≡ is_upper byte }
{
    b'A' <= byte && byte <= b'Z'
}

pub(crate) fn is_separator(byte: u8) -> bool
    ensures { result ≡ is_separator byte }
{
    !(is_digit(byte) || byte == b'-' || byte == b'(' || byte == b')' || byte == b';')
}

pub(crate) fn is_blank(byte: u8) -> bool
    ensures { result ≡ is_blank byte }
{
    is_separator(byte) && !is_upper(byte)
}

/// Where the blanks end that begin here.
pub(crate) fn past_blanks(bytes: &[u8], at: usize) -> usize
    requires { at ≤ length bytes.now }
    ensures rest { drop result bytes.now ≡ past_blanks (drop at bytes.now) }
    ensures behind { at ≤ result }
    ensures within { result ≤ length bytes.now }
{
    for end in at..bytes.len() {
        if !is_blank(bytes[end]) {
            return end;
        }
    }
    bytes.len()
}

/// Where the separators end that begin here.
pub(crate) fn past_separators(bytes: &[u8], at: usize) -> usize
    requires { at ≤ length bytes.now }
    ensures rest { drop result bytes.now ≡ past (drop at bytes.now) }
    ensures behind { at ≤ result }
    ensures within { result ≤ length bytes.now }
{
    for end in at..bytes.len() {
        if !is_separator(bytes[end]) {
            return end;
        }
    }
    bytes.len()
}

/// Where the rest begins behind one separator.
pub(crate) fn separator(bytes: &[u8], at: usize) -> Option<usize>
    requires { at ≤ length bytes.now }
    ensures { MatchOption result (separator_from (drop at bytes.now) ≡ None)
        (λ end. (separator_from (drop at bytes.now) ≡ Some (tt, drop end bytes.now)) × (at < end)
        × (end ≤ length bytes.now)) }
{
    if at < bytes.len() && is_separator(bytes[at]) {
        Some(at + 1)
    } else {
        None
    }
}

/// Whether a number follows, behind separators.
pub(crate) fn number_follows(bytes: &[u8], at: usize) -> bool
    requires { at ≤ length bytes.now }
    ensures { result ≡ follows (drop at bytes.now) }
{
    let start = past_separators(bytes, at);
    start < bytes.len() && (is_digit(bytes[start]) || bytes[start] == b'-')
}
