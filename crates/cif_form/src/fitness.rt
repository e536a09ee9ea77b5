//! The commands that have a text.

ghost use Rattle.std.specs.Prelude.{◌≡◌, ◌≢◌, ◌<◌, ◌≤◌, ◌⊎◌, ◌↔◌, pos, ◌≤ℤ◌, [], ◌∷◌, ◌++◌, All, IsTrue, length};
ghost use Rattle.std.specs.List.{flat_map};
ghost use Rattle.cif_form.specs.Text.{IsDigit, IsUpper, IsShortName, IsBalanced};
ghost use Rattle.cif_form.specs.Fits.{IsSmall, point_numbers, turn_numbers, Fits};

use crate::command::{Command, Turn};
use crate::limits::NUMBER_LIMIT;
use crate::turns::Turns;
use lam_geom::Point;

const LIMIT: i64 = NUMBER_LIMIT as i64;

fn is_small(number: i64) -> bool
    ensures { IsTrue result ↔ IsSmall number }
{
    -LIMIT < number && number < LIMIT
}

// What is written without a sign.
fn is_unsigned(number: i64) -> bool
    ensures { IsTrue result ↔ ((pos 0 ≤ℤ number) × IsSmall number) }
{
    0 <= number && number < LIMIT
}

fn are_unsigned(first: i64, second: i64) -> bool
    ensures { IsTrue result ↔ All (λ z. (pos 0 ≤ℤ z) × IsSmall z) (first ∷ second ∷ []) }
{
    is_unsigned(first) && is_unsigned(second)
}

fn is_near(point: Point) -> bool
    ensures { IsTrue result ↔ All IsSmall (point_numbers point) }
{
    is_small(point.x) && is_small(point.y)
}

fn are_both_near(first: Point, second: Point) -> bool
    ensures { IsTrue result ↔ All IsSmall (point_numbers first ++ point_numbers second) }
{
    is_near(first) && is_near(second)
}

fn are_near(points: &[Point]) -> bool
    ensures { IsTrue result ↔ All IsSmall (flat_map point_numbers points.now) }
{
    for point in points {
        if !is_near(*point) {
            return false;
        }
    }
    true
}

fn is_path(points: &[Point]) -> bool
    ensures { IsTrue result ↔ ((0 < length points.now) × All IsSmall (flat_map point_numbers points.now)) }
{
    !points.is_empty() && are_near(points)
}

fn is_turn(turn: Turn) -> bool
    ensures { IsTrue result ↔ All IsSmall (turn_numbers turn) }
{
    match turn {
        Turn::Move(point) | Turn::Rotate(point) => is_near(point),
        Turn::MirrorX | Turn::MirrorY => true,
    }
}

fn are_turns(turns: &Turns) -> bool
    ensures { IsTrue result ↔ All IsSmall (flat_map turn_numbers turns.now) }
{
    for turn in turns.iter() {
        if !is_turn(turn) {
            return false;
        }
    }
    true
}

fn is_short_name(name: &[u8]) -> bool
    ensures { IsTrue result ↔ IsShortName name.now }
{
    !name.is_empty()
        && name.len() <= 4
        && name
            .iter()
            .all(|byte| byte.is_ascii_digit() || byte.is_ascii_uppercase())
}

fn is_user_text(text: &[u8]) -> bool
    ensures { IsTrue result ↔ All (λ b. b ≢ 59) text.now }
{
    text.iter().all(|byte| *byte != b';')
}

fn is_balanced(text: &[u8]) -> bool
    ensures { IsTrue result ↔ IsBalanced 0 text.now }
{
    let mut depth: usize = 0;
    for i in 0..text.len() {
        if text[i] == b'(' {
            depth += 1;
        } else if text[i] == b')' {
            if depth == 0 {
                return false;
            }
            depth -= 1;
        }
    }
    depth == 0
}

impl Command {
    /// Whether the command has a text: its numbers are at most 2^31 - 1 in size, those without a sign aren't
    /// negative, a path has a point, a layer's name has one to four digits or upper-case letters, a user command's
    /// digit is at most 9 and its text has no `;`, and the parentheses of a comment are balanced.
    pub fn fits(&self) -> bool
        ensures { IsTrue result ↔ Fits self.now }
    {
        match self {
            Command::Polygon(path) => is_path(path.as_slice()),
            Command::Box {
                length,
                width,
                center,
                direction,
            } => are_unsigned(*length, *width) && are_both_near(*center, *direction),
            Command::Round { diameter, center } => is_unsigned(*diameter) && is_near(*center),
            Command::Wire { width, path } => is_unsigned(*width) && is_path(path.as_slice()),
            Command::Layer(name) => is_short_name(name.bytes()),
            Command::Start { number, a, b } => is_unsigned(*number) && are_unsigned(*a, *b),
            Command::Finish => true,
            Command::Delete(number) => is_unsigned(*number),
            Command::Call { number, turns } => is_unsigned(*number) && are_turns(turns),
            Command::User { digit, text } => *digit <= 9 && is_user_text(text.bytes()),
            Command::Comment(text) => is_balanced(text.bytes()),
        }
    }
}
