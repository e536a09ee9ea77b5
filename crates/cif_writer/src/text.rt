//! The parts of a command's text.

ghost use Rattle.std.specs.Prelude.{◌≡◌, ◌≤◌, ◌++◌, ◌∷◌, codes};
ghost use Rattle.std.specs.List.{flat_map};
ghost use Rattle.outside.specs.Outside.{Gains, HasCause};
ghost use Rattle.outside.specs.Piece.{TakesAll};
ghost use Rattle.cif_form.specs.Writing.{space, point_text, path_text, turn_text, turns_text};
ghost use Rattle.cif_writer.specs.Texts.{number_text};

use cif_form::{Turn, Turns};
use itoa::Buffer;
use lam_geom::Point;
use outside::{Failed, Sink, write_all};

/// Writes a text and then another.
pub(crate) fn write_both<O: Sink>(out: &mut O, first: &[u8], then: &[u8]) -> Result<(), Failed>
    ensures taken { TakesAll Gains (O.held out.old) (O.held out.new) (first.now ++ then.now) result }
    ensures cause { HasCause (O.faults out.old) (O.faults out.new) result }
{
    write_all(out, first)?;
    write_all(out, then)
}

// A space and a number.
fn write_number<O: Sink>(out: &mut O, number: i64) -> Result<(), Failed>
    ensures taken { TakesAll Gains (O.held out.old) (O.held out.new) (number_text number) result }
    ensures cause { HasCause (O.faults out.old) (O.faults out.new) result }
{
    let mut buffer = Buffer::new();
    write_both(out, b" ", buffer.format(number).as_bytes())
}

// Numbers, each behind a space.
fn write_numbers<O: Sink>(out: &mut O, numbers: &[i64]) -> Result<(), Failed>
    ensures taken { TakesAll Gains (O.held out.old) (O.held out.new) (flat_map number_text numbers.now) result }
    ensures cause { HasCause (O.faults out.old) (O.faults out.new) result }
{
    for number in numbers {
        write_number(out, *number)?;
    }
    Ok(())
}

/// Writes letters and the numbers behind them, each behind a space.
pub(crate) fn write_tagged<O: Sink>(
    out: &mut O,
    letters: &[u8],
    numbers: &[i64],
) -> Result<(), Failed>
    ensures taken { TakesAll Gains (O.held out.old) (O.held out.new)
        (letters.now ++ flat_map number_text numbers.now) result }
    ensures cause { HasCause (O.faults out.old) (O.faults out.new) result }
{
    write_all(out, letters)?;
    write_numbers(out, numbers)
}

fn write_point<O: Sink>(out: &mut O, point: Point) -> Result<(), Failed>
    ensures taken { TakesAll Gains (O.held out.old) (O.held out.new) (space ++ point_text point) result }
    ensures cause { HasCause (O.faults out.old) (O.faults out.new) result }
{
    write_numbers(out, &[point.x, point.y])
}

/// Writes the points of a path.
pub(crate) fn write_path<O: Sink>(out: &mut O, points: &[Point]) -> Result<(), Failed>
    ensures taken { TakesAll Gains (O.held out.old) (O.held out.new) (path_text points.now) result }
    ensures cause { HasCause (O.faults out.old) (O.faults out.new) result }
{
    for point in points {
        write_point(out, *point)?;
    }
    Ok(())
}

/// Writes a turn of a call.
pub(crate) fn write_turn<O: Sink>(out: &mut O, turn: Turn) -> Result<(), Failed>
    ensures taken { TakesAll Gains (O.held out.old) (O.held out.new) (turn_text turn) result }
    ensures cause { HasCause (O.faults out.old) (O.faults out.new) result }
{
    match turn {
        Turn::Move(point) => write_tagged(out, b" T", &[point.x, point.y]),
        Turn::MirrorX => write_all(out, b" M X"),
        Turn::MirrorY => write_all(out, b" M Y"),
        Turn::Rotate(point) => write_tagged(out, b" R", &[point.x, point.y]),
    }
}

/// Writes the turns of a call.
pub(crate) fn write_turns<O: Sink>(out: &mut O, turns: &Turns) -> Result<(), Failed>
    ensures taken { TakesAll Gains (O.held out.old) (O.held out.new) (turns_text turns.now) result }
    ensures cause { HasCause (O.faults out.old) (O.faults out.new) result }
{
    for turn in turns.iter() {
        write_turn(out, turn)?;
    }
    Ok(())
}
