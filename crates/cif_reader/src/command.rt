//! Commands.

ghost use Rattle.std.specs.Prelude.{◌≡◌, ℕ, ◌≤◌, ◌<◌, length, drop, pos, IfOk, IfSome, slice_index};
ghost use Rattle.lam_geom.specs.declared.place.Point.{Point};
ghost use Rattle.cif_form.specs.Text.{right};
ghost use Rattle.cif_form.specs.Readers.{and_then, gives, integer_from, point_from, path_here, comment_from};
ghost use Rattle.cif_form.specs.Readers.{past_blanks, tail_from, then_separator, box_long, round_of, wire_of, call_of};
ghost use Rattle.cif_form.specs.Readers.{start_of, scale_from, scale_under, definition_from, layer_from, letter_from};
ghost use Rattle.cif_form.specs.Readers.{user_of, words_from, command_from};
ghost use Rattle.cif_reader.specs.Capped.{cut_command, cut_point, cut_number, cut_scale};
ghost use Rattle.cif_reader.specs.Finding.{Answers};

use crate::bytes::{number_follows, past_blanks, separator};
use crate::found::Found;
use crate::numbers::{integer, path, then_integer, then_point, turns};
use crate::words::{comment_end, name_end, words_end};
use cif_form::Command;
use lam_geom::Point;
use mp_base::{Name, is_digit};
use std::alloc::{AllocError, Global};

type Read = Result<Option<Found<Command>>, AllocError>;

fn polygon(alloc: Global, bytes: &[u8], at: usize) -> Read
    requires { at ≤ length bytes.now }
    ensures { IfOk result (Answers cut_command (and_then path_here (gives Command.Polygon)) bytes.now at) }
{
    let Some(Found { value, end }) = path(alloc, bytes, at)? else {
        return Ok(None);
    };
    Ok(Some(Found {
        value: Command::Polygon(value),
        end,
    }))
}

// The direction of a box, to the right where none is written.
fn direction(bytes: &[u8], at: usize) -> Option<Found<Point>>
    requires { at ≤ length bytes.now }
    ensures { Answers cut_point (tail_from right (then_separator point_from)) bytes.now at result }
{
    if number_follows(bytes, at) {
        return then_point(bytes, at);
    }
    Some(Found {
        value: Point { x: 1, y: 0 },
        end: at,
    })
}

fn box_of(bytes: &[u8], at: usize) -> Option<Found<Command>>
    requires { at ≤ length bytes.now }
    ensures { Answers cut_command (and_then integer_from box_long) bytes.now at result }
{
    let length = integer(bytes, at)?;
    let width = then_integer(bytes, length.end)?;
    let center = then_point(bytes, width.end)?;
    let along = direction(bytes, center.end)?;
    Some(Found {
        value: Command::Box {
            length: length.value,
            width: width.value,
            center: center.value,
            direction: along.value,
        },
        end: along.end,
    })
}

fn round(bytes: &[u8], at: usize) -> Option<Found<Command>>
    requires { at ≤ length bytes.now }
    ensures { Answers cut_command (and_then integer_from round_of) bytes.now at result }
{
    let diameter = integer(bytes, at)?;
    let center = then_point(bytes, diameter.end)?;
    Some(Found {
        value: Command::Round {
            diameter: diameter.value,
            center: center.value,
        },
        end: center.end,
    })
}

fn wire(alloc: Global, bytes: &[u8], at: usize) -> Read
    requires { at ≤ length bytes.now }
    ensures { IfOk result (Answers cut_command (and_then integer_from wire_of) bytes.now at) }
{
    let Some(width) = integer(bytes, at) else {
        return Ok(None);
    };
    let Some(next) = separator(bytes, width.end) else {
        return Ok(None);
    };
    let Some(Found { value, end }) = path(alloc, bytes, next)? else {
        return Ok(None);
    };
    Ok(Some(Found {
        value: Command::Wire {
            width: width.value,
            path: value,
        },
        end,
    }))
}

fn layer(alloc: Global, bytes: &[u8], at: usize) -> Read
    requires { at ≤ length bytes.now }
    ensures { IfOk result (Answers cut_command layer_from bytes.now at) }
{
    let end = name_end(bytes, at);
    let name = &bytes[at..end];
    if name.is_empty() || name.len() > 4 {
        return Ok(None);
    }
    let name = Name::from_slice(alloc, name)?;
    Ok(Some(Found {
        value: Command::Layer(name),
        end,
    }))
}

// The scale that is written behind the number of a definition.
fn written_scale(bytes: &[u8], at: usize) -> Option<Found<(i64, i64)>>
    requires { at ≤ length bytes.now }
    ensures { Answers cut_scale (then_separator (and_then integer_from scale_under)) bytes.now at result }
{
    let a = then_integer(bytes, at)?;
    let b = then_integer(bytes, a.end)?;
    Some(Found {
        value: (a.value, b.value),
        end: b.end,
    })
}

// The scale of a definition, 1 where none is written.
fn scale(bytes: &[u8], at: usize) -> Option<Found<(i64, i64)>>
    requires { at ≤ length bytes.now }
    ensures { Answers cut_scale scale_from bytes.now at result }
{
    if number_follows(bytes, at) {
        return written_scale(bytes, at);
    }
    Some(Found {
        value: (1, 1),
        end: at,
    })
}

fn start(bytes: &[u8], at: usize) -> Option<Found<Command>>
    requires { at ≤ length bytes.now }
    ensures { Answers cut_command (and_then integer_from start_of) bytes.now at result }
{
    let number = integer(bytes, at)?;
    let scale = scale(bytes, number.end)?;
    let (a, b) = scale.value;
    Some(Found {
        value: Command::Start {
            number: number.value,
            a,
            b,
        },
        end: scale.end,
    })
}

fn delete(bytes: &[u8], at: usize) -> Option<Found<Command>>
    requires { at ≤ length bytes.now }
    ensures { Answers cut_command (and_then integer_from (gives Command.Delete)) bytes.now at result }
{
    let Found { value, end } = integer(bytes, at)?;
    Some(Found {
        value: Command::Delete(value),
        end,
    })
}

// What follows a `D` and blanks.
fn definition(bytes: &[u8], at: usize) -> Option<Found<Command>>
    requires { at ≤ length bytes.now }
    ensures { Answers cut_command definition_from bytes.now at result }
{
    if at == bytes.len() {
        return None;
    }
    match bytes[at] {
        b'S' => start(bytes, at + 1),
        b'F' => Some(Found {
            value: Command::Finish,
            end: at + 1,
        }),
        b'D' => delete(bytes, at + 1),
        _ => None,
    }
}

fn call(alloc: Global, bytes: &[u8], at: usize) -> Read
    requires { at ≤ length bytes.now }
    ensures { IfOk result (Answers cut_command (and_then integer_from call_of) bytes.now at) }
{
    let Some(number) = integer(bytes, at) else {
        return Ok(None);
    };
    let Found { value, end } = turns(alloc, bytes, number.end)?;
    Ok(Some(Found {
        value: Command::Call {
            number: number.value,
            turns: value,
        },
        end,
    }))
}

fn comment(alloc: Global, bytes: &[u8], at: usize) -> Read
    requires { at ≤ length bytes.now }
    ensures { IfOk result (Answers cut_command (and_then (comment_from 0) (gives Command.Comment)) bytes.now at) }
{
    let Some(end) = comment_end(bytes, at) else {
        return Ok(None);
    };
    let text = Name::from_slice(alloc, &bytes[at..end])?;
    Ok(Some(Found {
        value: Command::Comment(text),
        end: end + 1,
    }))
}

fn user(alloc: Global, digit: u8, bytes: &[u8], at: usize) -> Read
    requires { at ≤ length bytes.now }
    ensures { IfOk result (Answers cut_command (λ text. user_of digit (words_from text)) bytes.now at) }
{
    let end = words_end(bytes, at);
    let text = Name::from_slice(alloc, &bytes[at..end])?;
    Ok(Some(Found {
        value: Command::User { digit, text },
        end,
    }))
}

// What follows the letter of a command.
fn lettered(alloc: Global, letter: u8, bytes: &[u8], at: usize) -> Read
    requires { at ≤ length bytes.now }
    ensures { IfOk result (Answers cut_command (letter_from letter) bytes.now at) }
{
    match letter {
        b'P' => polygon(alloc, bytes, at),
        b'B' => Ok(box_of(bytes, at)),
        b'R' => Ok(round(bytes, at)),
        b'W' => wire(alloc, bytes, at),
        b'L' => layer(alloc, bytes, past_blanks(bytes, at)),
        b'D' => Ok(definition(bytes, past_blanks(bytes, at))),
        b'C' => call(alloc, bytes, at),
        b'(' => comment(alloc, bytes, at),
        _ => Ok(None),
    }
}

/// The command that begins here.
pub(crate) fn command(alloc: Global, bytes: &[u8], at: usize) -> Read
    requires { at < length bytes.now }
    ensures { IfOk result (Answers cut_command command_from bytes.now at) }
{
    let first = bytes[at];
    if is_digit(first) {
        user(alloc, first - b'0', bytes, at + 1)
    } else {
        lettered(alloc, first, bytes, at + 1)
    }
}
