//! Numbers, points, paths and turns.

ghost use Rattle.std.specs.Prelude.{◌≡◌, ℕ, ◌≤◌, ◌<◌, [], length, drop, pos, neg_ℤ, None, IfOk, IfSome, MatchOption};
ghost use Rattle.cif_form.specs.declared.limits.TheConstants.{NUMBER_LIMIT};
ghost use Rattle.cif_form.specs.Readers.{natural_from, integer_from, signed_from, point_from, path_here, turn_from};
ghost use Rattle.cif_form.specs.Readers.{and_then, gives, turns_here, past_blanks, then_separator, mirror_from};
ghost use Rattle.cif_reader.specs.Capped.{cut, cut_number, cut_point, cut_path, cut_turn, cut_turns};
ghost use Rattle.cif_reader.specs.Finding.{Answers, IsFound};

use crate::bytes::{number_follows, past_blanks, past_separators, separator};
use crate::found::Found;
use cif_form::{NUMBER_LIMIT, Turn, Turns};
use lam_geom::Point;
use mp_base::{List, is_digit};
use std::alloc::{AllocError, Global};

// The digits that begin here, one at least.
fn natural(bytes: &[u8], at: usize) -> Option<Found<u64>>
    requires { at ≤ length bytes.now }
    ensures answers { Answers cut natural_from bytes.now at result }
    ensures small { IfSome result (λ r. r.value ≤ NUMBER_LIMIT) }
    ensures further { IfSome result (λ r. at < r.end) }
{
    if at == bytes.len() || !is_digit(bytes[at]) {
        return None;
    }
    let mut value = 0;
    for end in at..bytes.len() {
        if !is_digit(bytes[end]) {
            return Some(Found { value, end });
        }
        value = (value * 10 + (bytes[end] - b'0') as u64).min(NUMBER_LIMIT);
    }
    Some(Found {
        value,
        end: bytes.len(),
    })
}

// The number of the digits that begin here.
fn unsigned(bytes: &[u8], at: usize) -> Option<Found<i64>>
    requires { at ≤ length bytes.now }
    ensures answers { Answers cut_number (and_then natural_from (gives pos)) bytes.now at result }
    ensures further { IfSome result (λ r. at < r.end) }
{
    let Found { value, end } = natural(bytes, at)?;
    Some(Found {
        value: value as i64,
        end,
    })
}

// The same behind a `-`.
fn negative(bytes: &[u8], at: usize) -> Option<Found<i64>>
    requires { at ≤ length bytes.now }
    ensures answers { Answers cut_number (and_then natural_from (gives (λ n. neg_ℤ (pos n)))) bytes.now at result }
    ensures further { IfSome result (λ r. at < r.end) }
{
    let Found { value, end } = natural(bytes, at)?;
    Some(Found {
        value: -(value as i64),
        end,
    })
}

/// A number without a sign.
pub(crate) fn integer(bytes: &[u8], at: usize) -> Option<Found<i64>>
    requires { at ≤ length bytes.now }
    ensures answers { Answers cut_number integer_from bytes.now at result }
    ensures further { IfSome result (λ r. at < r.end) }
{
    unsigned(bytes, past_separators(bytes, at))
}

/// A number that may have a sign.
pub(crate) fn signed(bytes: &[u8], at: usize) -> Option<Found<i64>>
    requires { at ≤ length bytes.now }
    ensures answers { Answers cut_number signed_from bytes.now at result }
    ensures further { IfSome result (λ r. at < r.end) }
{
    let start = past_separators(bytes, at);
    if start < bytes.len() && bytes[start] == b'-' {
        return negative(bytes, start + 1);
    }
    unsigned(bytes, start)
}

/// A point.
pub(crate) fn point(bytes: &[u8], at: usize) -> Option<Found<Point>>
    requires { at ≤ length bytes.now }
    ensures answers { Answers cut_point point_from bytes.now at result }
    ensures further { IfSome result (λ r. at < r.end) }
{
    let x = signed(bytes, at)?;
    let next = separator(bytes, x.end)?;
    let y = signed(bytes, next)?;
    Some(Found {
        value: Point {
            x: x.value,
            y: y.value,
        },
        end: y.end,
    })
}

/// A separator and a number without a sign.
pub(crate) fn then_integer(bytes: &[u8], at: usize) -> Option<Found<i64>>
    requires { at ≤ length bytes.now }
    ensures { Answers cut_number (then_separator integer_from) bytes.now at result }
{
    let next = separator(bytes, at)?;
    integer(bytes, next)
}

/// A separator and a point.
pub(crate) fn then_point(bytes: &[u8], at: usize) -> Option<Found<Point>>
    requires { at ≤ length bytes.now }
    ensures { Answers cut_point (then_separator point_from) bytes.now at result }
{
    let next = separator(bytes, at)?;
    point(bytes, next)
}

// Adds the points of a path, and tells where it ends.
fn add_points(
    bytes: &[u8],
    at: usize,
    points: &mut List<Point>,
) -> Result<Option<usize>, AllocError>
    requires within { at ≤ length bytes.now }
    requires empty { points.old ≡ [] }
    ensures { IfOk result (λ end. MatchOption end (path_here (drop at bytes.now) ≡ None)
        (IsFound cut_path (path_here (drop at bytes.now)) bytes.now at points.new)) }
{
    let mut from = at;
    'points: loop {
        let Some(Found { value, end }) = point(bytes, from) else {
            return Ok(None);
        };
        points.push(value)?;
        if !number_follows(bytes, end) {
            return Ok(Some(end));
        }
        let Some(next) = separator(bytes, end) else {
            return Ok(None);
        };
        from = next;
    }
}

/// The points of a path.
pub(crate) fn path(
    alloc: Global,
    bytes: &[u8],
    at: usize,
) -> Result<Option<Found<List<Point>>>, AllocError>
    requires { at ≤ length bytes.now }
    ensures { IfOk result (λ r. Answers cut_path path_here bytes.now at r) }
{
    let mut points = List::new(alloc);
    let Some(end) = add_points(bytes, at, &mut points)? else {
        return Ok(None);
    };
    Ok(Some(Found { value: points, end }))
}

// The axis of a mirror.
fn mirror(bytes: &[u8], at: usize) -> Option<Found<Turn>>
    requires { at ≤ length bytes.now }
    ensures answers { Answers cut_turn mirror_from bytes.now at result }
    ensures further { IfSome result (λ r. at < r.end) }
{
    if at == bytes.len() {
        return None;
    }
    match bytes[at] {
        b'X' => Some(Found {
            value: Turn::MirrorX,
            end: at + 1,
        }),
        b'Y' => Some(Found {
            value: Turn::MirrorY,
            end: at + 1,
        }),
        _ => None,
    }
}

// A turn, with no blanks in front of it.
fn turn(bytes: &[u8], at: usize) -> Option<Found<Turn>>
    requires { at ≤ length bytes.now }
    ensures answers { Answers cut_turn turn_from bytes.now at result }
    ensures further { IfSome result (λ r. at < r.end) }
{
    if at == bytes.len() {
        return None;
    }
    match bytes[at] {
        b'T' => {
            let Found { value, end } = point(bytes, at + 1)?;
            Some(Found {
                value: Turn::Move(value),
                end,
            })
        }
        b'R' => {
            let Found { value, end } = point(bytes, at + 1)?;
            Some(Found {
                value: Turn::Rotate(value),
                end,
            })
        }
        b'M' => mirror(bytes, past_blanks(bytes, at + 1)),
        _ => None,
    }
}

/// The turns of a call.
#[tactic(auto, using(crate::proofs::Paths::turns_begin, crate::proofs::Paths::turns_go_on, crate::proofs::Paths::turns_end))]
pub(crate) fn turns(alloc: Global, bytes: &[u8], at: usize) -> Result<Found<Turns>, AllocError>
    requires { at ≤ length bytes.now }
    ensures { IfOk result (λ r. IsFound cut_turns (turns_here (drop at bytes.now)) bytes.now at r.value r.end) }
{
    let mut turns = Turns::new(alloc);
    let mut from = at;
    'turns: loop {
        let Some(Found { value, end }) = turn(bytes, past_blanks(bytes, from)) else {
            return Ok(Found {
                value: turns,
                end: from,
            });
        };
        turns.push(value)?;
        from = end;
    }
}
