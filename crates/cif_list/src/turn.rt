//! Turns of calls, with numbers of 32 bits.

ghost use Rattle.std.specs.Prelude.{◌≡◌, All, IfOk, map};
ghost use Rattle.std.specs.List.{flat_map};
ghost use Rattle.cif_form.specs.Fits.{IsSmall, point_numbers, turn_numbers};
ghost use Rattle.cif_list.specs.Growing.{IsGrown, IsPart, part};
ghost use Rattle.cif_list.specs.Turning.{wide_point, wide_turn};

use crate::arena::{Span, push, span_behind};
use cif_form::{Turn, Turns};
use lam_geom::Point;
use mp_base::NoMemory;

/// A point whose numbers are at most 2^31 - 1 in size.
#[derive(Clone, Copy, Drop)]
pub struct ShortPoint {
    pub x: i32,
    pub y: i32,
}

/// A turn of a call, whose numbers are at most 2^31 - 1 in size.
#[derive(Clone, Copy, Drop)]
pub enum ShortTurn {
    Move(ShortPoint),
    MirrorX,
    MirrorY,
    Rotate(ShortPoint),
}

/// The same number in 32 bits.
pub(crate) fn short(number: i64) -> i32
    requires { IsSmall number }
    ensures { result ≡ number }
{
    number as i32
}

fn short_point(point: Point) -> ShortPoint
    requires { All IsSmall (point_numbers point) }
    ensures { wide_point result ≡ point }
{
    ShortPoint {
        x: short(point.x),
        y: short(point.y),
    }
}

fn short_turn(turn: Turn) -> ShortTurn
    requires { All IsSmall (turn_numbers turn) }
    ensures { wide_turn result ≡ turn }
{
    match turn {
        Turn::Move(point) => ShortTurn::Move(short_point(point)),
        Turn::MirrorX => ShortTurn::MirrorX,
        Turn::MirrorY => ShortTurn::MirrorY,
        Turn::Rotate(point) => ShortTurn::Rotate(short_point(point)),
    }
}

impl ShortPoint {
    fn point(self) -> Point
        ensures { result ≡ wide_point self }
    {
        Point {
            x: self.x as i64,
            y: self.y as i64,
        }
    }
}

impl ShortTurn {
    /// The turn, as the form of CIF has it.
    pub fn turn(self) -> Turn
        ensures { result ≡ wide_turn self }
    {
        match self {
            ShortTurn::Move(point) => Turn::Move(point.point()),
            ShortTurn::MirrorX => Turn::MirrorX,
            ShortTurn::MirrorY => Turn::MirrorY,
            ShortTurn::Rotate(point) => Turn::Rotate(point.point()),
        }
    }
}

/// Adds all of these turns, and says which part they are.
pub(crate) fn append_turns(arena: &mut Vec<ShortTurn>, turns: &Turns) -> Result<Span, NoMemory>
    requires { All IsSmall (flat_map turn_numbers turns.now) }
    ensures grown { IsGrown arena.old.items arena.new.items }
    ensures within { IfOk result (IsPart arena.new.items) }
    ensures same { IfOk result (λ span. map wide_turn (part arena.new.items span) ≡ turns.now) }
{
    let span = span_behind(arena.len(), turns.len())?;
    for turn in turns.iter() {
        push(arena, short_turn(turn))?;
    }
    Ok(span)
}
