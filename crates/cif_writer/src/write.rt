//! Commands and the end.

ghost use Rattle.std.specs.Prelude.{◌≡◌, ◌≤◌, ◌++◌, ◌∷◌, [], codes};
ghost use Rattle.outside.specs.Outside.{Gains, HasCause};
ghost use Rattle.outside.specs.Piece.{TakesAll};
ghost use Rattle.cif_form.specs.Fits.{Fits};
ghost use Rattle.cif_form.specs.Writing.{path_text, turns_text, text_of};
ghost use Rattle.cif_writer.specs.Texts.{number_text};

use crate::text::{write_both, write_path, write_tagged, write_turns};
use cif_form::{Command, Turns};
use lam_geom::Point;
use outside::{Failed, Sink, write_all};

pub(crate) fn write_box<O: Sink>(
    out: &mut O,
    length: i64,
    width: i64,
    center: Point,
    direction: Point,
) -> Result<(), Failed>
    ensures taken { TakesAll Gains (O.held out.old) (O.held out.new)
        (text_of (Command.Box length width center direction)) result }
    ensures cause { HasCause (O.faults out.old) (O.faults out.new) result }
{
    if direction == (Point { x: 1, y: 0 }) {
        write_tagged(out, b"B", &[length, width, center.x, center.y])
    } else {
        write_tagged(
            out,
            b"B",
            &[length, width, center.x, center.y, direction.x, direction.y],
        )
    }
}

pub(crate) fn write_polygon<O: Sink>(out: &mut O, path: &[Point]) -> Result<(), Failed>
    ensures taken { TakesAll Gains (O.held out.old) (O.held out.new) (codes "P" ++ path_text path.now) result }
    ensures cause { HasCause (O.faults out.old) (O.faults out.new) result }
{
    write_all(out, b"P")?;
    write_path(out, path)
}

pub(crate) fn write_wire<O: Sink>(out: &mut O, width: i64, path: &[Point]) -> Result<(), Failed>
    ensures taken { TakesAll Gains (O.held out.old) (O.held out.new)
        (codes "W" ++ (number_text width ++ path_text path.now)) result }
    ensures cause { HasCause (O.faults out.old) (O.faults out.new) result }
{
    write_tagged(out, b"W", &[width])?;
    write_path(out, path)
}

fn write_call<O: Sink>(out: &mut O, number: i64, turns: &Turns) -> Result<(), Failed>
    ensures taken { TakesAll Gains (O.held out.old) (O.held out.new)
        (codes "C" ++ (number_text number ++ turns_text turns.now)) result }
    ensures cause { HasCause (O.faults out.old) (O.faults out.new) result }
{
    write_tagged(out, b"C", &[number])?;
    write_turns(out, turns)
}

pub(crate) fn write_comment<O: Sink>(out: &mut O, text: &[u8]) -> Result<(), Failed>
    ensures taken { TakesAll Gains (O.held out.old) (O.held out.new) (40 ∷ text.now ++ 41 ∷ []) result }
    ensures cause { HasCause (O.faults out.old) (O.faults out.new) result }
{
    write_both(out, b"(", text)?;
    write_all(out, b")")
}

fn write_text<O: Sink>(command: &Command, out: &mut O) -> Result<(), Failed>
    requires { Fits command.now }
    ensures taken { TakesAll Gains (O.held out.old) (O.held out.new) (text_of command.now) result }
    ensures cause { HasCause (O.faults out.old) (O.faults out.new) result }
{
    match command {
        Command::Polygon(path) => write_polygon(out, path.as_slice()),
        Command::Box {
            length,
            width,
            center,
            direction,
        } => write_box(out, *length, *width, *center, *direction),
        Command::Round { diameter, center } => {
            write_tagged(out, b"R", &[*diameter, center.x, center.y])
        }
        Command::Wire { width, path } => write_wire(out, *width, path.as_slice()),
        Command::Layer(name) => write_both(out, b"L ", name.bytes()),
        Command::Start { number, a, b } => write_tagged(out, b"DS", &[*number, *a, *b]),
        Command::Finish => write_all(out, b"DF"),
        Command::Delete(number) => write_tagged(out, b"DD", &[*number]),
        Command::Call { number, turns } => write_call(out, *number, turns),
        Command::User { digit, text } => write_both(out, &[b'0' + *digit], text.bytes()),
        Command::Comment(text) => write_comment(out, text.bytes()),
    }
}

/// Writes the text of a command, `;` and a line feed, or a first part of these where the output fails.
pub fn write_command<O: Sink>(command: &Command, out: &mut O) -> Result<(), Failed>
    requires { Fits command.now }
    ensures taken { TakesAll Gains (O.held out.old) (O.held out.new) (text_of command.now ++ codes ";\n") result }
    ensures cause { HasCause (O.faults out.old) (O.faults out.new) result }
{
    write_text(command, out)?;
    write_all(out, b";\n")
}

/// Writes the end of a file: `E` and a line feed.
pub fn write_end<O: Sink>(out: &mut O) -> Result<(), Failed>
    ensures taken { TakesAll Gains (O.held out.old) (O.held out.new) (codes "E\n") result }
    ensures cause { HasCause (O.faults out.old) (O.faults out.new) result }
{
    write_all(out, b"E\n")
}
