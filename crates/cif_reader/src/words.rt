//! The names, texts and comments in commands.

ghost use Rattle.std.specs.Prelude.{◌≡◌, ℕ, ◌+◌, ◌≤◌, ◌<◌, length, drop, slice_range, Some, MatchOption};
ghost use Rattle.cif_form.specs.Readers.{is_name_byte, name_from, words_from, comment_from};

use crate::bytes::is_upper;
use mp_base::is_digit;

/// Where the name ends that begins here.
#[tactic(auto, using(crate::proofs::Runs::name_begins, crate::proofs::Runs::name_goes_on, crate::proofs::Runs::name_stops, crate::proofs::Runs::name_ends))]
pub(crate) fn name_end(bytes: &[u8], at: usize) -> usize
    requires { at ≤ length bytes.now }
    ensures name { name_from (drop at bytes.now) ≡ (slice_range bytes.now at result, drop result bytes.now) }
    ensures behind { at ≤ result }
    ensures within { result ≤ length bytes.now }
{
    for end in at..bytes.len() {
        if !(is_digit(bytes[end]) || is_upper(bytes[end])) {
            return end;
        }
    }
    bytes.len()
}

/// Where the next semicolon stands, or the end.
#[tactic(auto, using(crate::proofs::Runs::words_begin, crate::proofs::Runs::words_go_on, crate::proofs::Runs::words_stop, crate::proofs::Runs::words_end))]
pub(crate) fn words_end(bytes: &[u8], at: usize) -> usize
    requires { at ≤ length bytes.now }
    ensures words { words_from (drop at bytes.now) ≡ (slice_range bytes.now at result, drop result bytes.now) }
    ensures behind { at ≤ result }
    ensures within { result ≤ length bytes.now }
{
    for end in at..bytes.len() {
        if bytes[end] == b';' {
            return end;
        }
    }
    bytes.len()
}

/// Where the parenthesis stands that closes the comment whose text begins here.
#[tactic(auto, using(crate::proofs::Runs::comment_begins, crate::proofs::Runs::comment_opens, crate::proofs::Runs::comment_closes, crate::proofs::Runs::comment_goes_on, crate::proofs::Runs::comment_ends, crate::proofs::Runs::comment_lacks))]
pub(crate) fn comment_end(bytes: &[u8], at: usize) -> Option<usize>
    requires { at ≤ length bytes.now }
    ensures { MatchOption result (comment_from 0 (drop at bytes.now) ≡ None)
        (λ end. (comment_from 0 (drop at bytes.now) ≡ Some (slice_range bytes.now at end, drop (end + 1) bytes.now))
        × (at ≤ end) × (end < length bytes.now)) }
{
    let mut depth: usize = 0;
    for end in at..bytes.len() {
        match bytes[end] {
            b'(' => depth += 1,
            b')' => {
                if depth == 0 {
                    return Some(end);
                }
                depth -= 1;
            }
            _ => {}
        }
    }
    None
}
