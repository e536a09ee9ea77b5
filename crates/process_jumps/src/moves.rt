//! The moves of a program: its `go`, `call` and `return`.

ghost use Rattle.std.specs.Prelude.{◌≡◌, length, IfOk};
ghost use Rattle.process_layout.specs.Counts.{is_of, is_at};
ghost use Rattle.process_jumps.specs.Moves.{move_kind, move_of, moves_in, picks, picked};

use crate::exprs::add;
use mp_base::{List, NoMemory};
use mp_program::{Form, FormKind};
use process_plan::{Enable, Origin};
use std::alloc::Global;

/// How a form moves its process.
#[derive(Clone, Copy, PartialEq, Eq, Debug)]
pub enum MoveKind {
    Go,
    Call,
    Return,
}

/// A form that moves its process, and when it is active.
#[derive(Clone, Copy, PartialEq, Eq, Debug)]
pub struct Move {
    pub kind: MoveKind,
    pub enable: Enable,
}

/// Some of the moves.
#[derive(Clone, Copy, PartialEq, Eq, Debug)]
pub(crate) enum Group {
    /// The calls in a process.
    Calls { process: u32 },
    /// The returns in a process.
    Returns { process: u32 },
    /// All moves in the form at a place of a process.
    Inside { process: u32, place: u32 },
}

fn move_kind(kind: &FormKind) -> Option<MoveKind>
    ensures { result ≡ move_kind kind.now }
{
    match kind {
        FormKind::Go(_) => Some(MoveKind::Go),
        FormKind::Call(_) => Some(MoveKind::Call),
        FormKind::Return => Some(MoveKind::Return),
        _ => None,
    }
}

fn move_of(kind: &FormKind, enable: Option<Enable>) -> Option<Move>
    ensures { result ≡ move_of kind.now enable }
{
    let enable = enable?;
    let kind = move_kind(kind)?;
    Some(Move { kind, enable })
}

/// The moves among forms, where they have enables.
///
/// # Errors
///
/// `NoMemory`.
pub fn moves_in(
    alloc: Global,
    forms: &[Form],
    enables: &[Option<Enable>],
) -> Result<List<Move>, NoMemory>
    requires { length enables.now ≡ length forms.now }
    ensures { IfOk result (λ moves. moves ≡ moves_in forms.now enables.now) }
{
    let mut moves = List::new(alloc);
    for index in 0..forms.len() {
        add(&mut moves, move_of(&forms[index].kind, enables[index]))?;
    }
    Ok(moves)
}

fn is_of(process: u32, origin: Origin) -> bool
    ensures { result ≡ is_of process origin }
{
    match origin {
        Origin::Always => false,
        Origin::At { process: other, .. } => other == process,
    }
}

fn is_at(process: u32, place: u32, origin: Origin) -> bool
    ensures { result ≡ is_at process place origin }
{
    match origin {
        Origin::Always => false,
        Origin::At {
            process: other,
            place: there,
        } => other == process && there == place,
    }
}

impl Group {
    fn picks(self, found: Move) -> bool
        ensures { result ≡ picks self found }
    {
        let origin = found.enable.origin;
        match self {
            Group::Calls { process } => {
                is_of(process, origin) && matches!(found.kind, MoveKind::Call)
            }
            Group::Returns { process } => {
                is_of(process, origin) && matches!(found.kind, MoveKind::Return)
            }
            Group::Inside { process, place } => is_at(process, place, origin),
        }
    }
}

/// The expressions of the enables of a group of moves.
pub(crate) fn picked(alloc: Global, moves: &[Move], group: Group) -> Result<List<u32>, NoMemory>
    ensures { IfOk result (λ exprs. exprs ≡ picked group moves.now) }
{
    let mut exprs = List::new(alloc);
    for found in moves {
        if group.picks(*found) {
            exprs.push(found.enable.expr)?;
        }
    }
    Ok(exprs)
}
