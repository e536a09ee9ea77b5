//! Commands that are lent, and the whole text of a list of them.

ghost use Rattle.std.specs.Prelude.{◌≡◌, ◌≤◌, ◌++◌, ◌∷◌, All, codes, map};
ghost use Rattle.outside.specs.Outside.{Gains, HasCause};
ghost use Rattle.outside.specs.Piece.{TakesAll};
ghost use Rattle.cif_form.specs.Fits.{Fits};
ghost use Rattle.cif_form.specs.Writing.{text_of, turns_text};
ghost use Rattle.cif_list.specs.Showing.{command_shown};
ghost use Rattle.cif_list.specs.Turning.{wide_turn};
ghost use Rattle.cif_writer.specs.Texts.{number_text, file_text, commands_of};

use crate::text::{write_both, write_path, write_tagged, write_turn};
use crate::write::{write_box, write_comment, write_end, write_polygon, write_wire};
use cif_list::{Cif, CommandView, ShortTurn};
use outside::{Failed, Sink, write_all};

fn write_short_turns<O: Sink>(out: &mut O, turns: &[ShortTurn]) -> Result<(), Failed>
    ensures taken { TakesAll Gains (O.held out.old) (O.held out.new) (turns_text (map wide_turn turns.now)) result }
    ensures cause { HasCause (O.faults out.old) (O.faults out.new) result }
{
    for turn in turns {
        write_turn(out, turn.turn())?;
    }
    Ok(())
}

fn write_short_call<O: Sink>(out: &mut O, number: i64, turns: &[ShortTurn]) -> Result<(), Failed>
    ensures taken { TakesAll Gains (O.held out.old) (O.held out.new)
        (codes "C" ++ (number_text number ++ turns_text (map wide_turn turns.now))) result }
    ensures cause { HasCause (O.faults out.old) (O.faults out.new) result }
{
    write_tagged(out, b"C", &[number])?;
    write_short_turns(out, turns)
}

fn write_shown<O: Sink>(view: CommandView<'_>, out: &mut O) -> Result<(), Failed>
    requires { Fits (command_shown view) }
    ensures taken { TakesAll Gains (O.held out.old) (O.held out.new) (text_of (command_shown view.entry)) result }
    ensures cause { HasCause (O.faults out.old) (O.faults out.new) result }
{
    match view {
        CommandView::Polygon(path) => write_polygon(out, path),
        CommandView::Box {
            length,
            width,
            center,
            direction,
        } => write_box(out, length, width, center, direction),
        CommandView::Round { diameter, center } => {
            write_tagged(out, b"R", &[diameter, center.x, center.y])
        }
        CommandView::Wire { width, path } => write_wire(out, width, path),
        CommandView::Layer(name) => write_both(out, b"L ", name),
        CommandView::Start { number, a, b } => write_tagged(out, b"DS", &[number, a, b]),
        CommandView::Finish => write_all(out, b"DF"),
        CommandView::Delete(number) => write_tagged(out, b"DD", &[number]),
        CommandView::Call { number, turns } => write_short_call(out, number, turns),
        CommandView::User { digit, text } => write_both(out, &[b'0' + digit], text),
        CommandView::Comment(text) => write_comment(out, text),
    }
}

/// Writes the text of a command that is lent, `;` and a line feed, or a first part of these where the output fails:
/// what [`write_command`](crate::write_command) writes of the command itself.
pub fn write_view<O: Sink>(view: CommandView<'_>, out: &mut O) -> Result<(), Failed>
    requires { Fits (command_shown view) }
    ensures taken { TakesAll Gains (O.held out.old) (O.held out.new)
        (text_of (command_shown view.entry) ++ codes ";\n") result }
    ensures cause { HasCause (O.faults out.old) (O.faults out.new) result }
{
    write_shown(view, out)?;
    write_all(out, b";\n")
}

/// Writes a whole file: each command of a list, followed by `;` and a line feed, and then `E` and a line feed, or a
/// first part of these where the output fails.
pub fn write_file<O: Sink>(commands: &Cif, out: &mut O) -> Result<(), Failed>
    requires { All Fits (commands_of commands.now) }
    ensures taken { TakesAll Gains (O.held out.old) (O.held out.new) (file_text (commands_of commands.now)) result }
    ensures cause { HasCause (O.faults out.old) (O.faults out.new) result }
{
    for index in 0..commands.len() {
        write_view(commands.at(index).command, out)?;
    }
    write_end(out)
}
