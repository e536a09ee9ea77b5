//! The turns of a call, held densely.

ghost use Rattle.std.specs.Prelude.{◌≡◌, ◌↔◌, List, [], ◌∷◌, ◌++◌, OnOk, OnErr, MatchOption, IsTrue, length};
ghost use Rattle.std.specs.Iterator.{YieldsFirst, item_count};
ghost use Rattle.cif_form.specs.declared.turns.TurnKind.{TurnKind};
ghost use Rattle.cif_form.specs.Turning.{kind_of, points_of, turns_of};

use crate::command::Turn;
use lam_geom::Point;
use std::alloc::{AllocError, Global};
use std::marker::Model;
use std::mem::size_of;

/// What a turn does. A move and a rotation have a point besides.
#[derive(Clone, Copy, Drop)]
pub(crate) enum TurnKind {
    Move,
    MirrorX,
    MirrorY,
    Rotate,
}

const _: () = prove!(size_of::<TurnKind>() == 1);

impl TurnKind {
    // The turn of this kind with the first of these points, if it has one, and the points behind.
    fn turn(self, points: &[Point]) -> Option<(Turn, &[Point])>
        ensures { (ks : List TurnKind) → let turns = turns_of (self ∷ ks) points.now in
            MatchOption result (turns ≡ []) (λ t. turns ≡ t.0 ∷ turns_of ks t.1.now) }
    {
        match self {
            TurnKind::MirrorX => Some((Turn::MirrorX, points)),
            TurnKind::MirrorY => Some((Turn::MirrorY, points)),
            TurnKind::Move => {
                let (point, others) = points.split_first()?;
                Some((Turn::Move(*point), others))
            }
            TurnKind::Rotate => {
                let (point, others) = points.split_first()?;
                Some((Turn::Rotate(*point), others))
            }
        }
    }
}

/// The turns of a call, from left to right, which contracts see as a list of turns: one byte for each, and the points
/// of moves and rotations.
#[derive(Drop)]
pub struct Turns {
    kinds: Vec<TurnKind>,
    points: Vec<Point>,
}

impl Model for Turns {
    ghost use Rattle.std.specs.Prelude.{List};
    ghost use Rattle.cif_form.specs.declared.command.Turn.{Turn};

    ghost Value = { List Turn };

    ghost use Rattle.cif_form.specs.Turning.{AreOf, turns_of};

    ghost view = { λ t. turns_of t.kinds.items t.points.items };

    ghost invariant = { λ t. AreOf (turns_of t.kinds.items t.points.items) t.kinds.items t.points.items };
}

impl Turn {
    fn kind(self) -> TurnKind
        ensures { result ≡ kind_of self }
    {
        match self {
            Turn::Move(_) => TurnKind::Move,
            Turn::MirrorX => TurnKind::MirrorX,
            Turn::MirrorY => TurnKind::MirrorY,
            Turn::Rotate(_) => TurnKind::Rotate,
        }
    }
}

// Adds the point of a turn, if it has one.
fn push_point(points: &mut Vec<Point>, turn: Turn) -> Result<(), AllocError>
    ensures ok { OnOk result (points.new.items ≡ points.old.items ++ points_of turn) }
    ensures err { OnErr result (points.new.items ≡ points.old.items) }
{
    match turn {
        Turn::Move(point) | Turn::Rotate(point) => {
            points.push(point)?;
            Ok(())
        }
        Turn::MirrorX | Turn::MirrorY => Ok(()),
    }
}

impl Turns {
    pub fn new(alloc: Global) -> Turns
        ensures { result ≡ [] }
    {
        Turns {
            kinds: Vec::new(alloc),
            points: Vec::new(alloc),
        }
    }

    /// How many turns there are.
    pub fn len(&self) -> usize
        ensures { result ≡ length self.now }
    {
        self.kinds.len()
    }

    pub fn is_empty(&self) -> bool
        ensures { IsTrue result ↔ (self.now ≡ []) }
    {
        self.kinds.is_empty()
    }

    /// Adds a turn at the end. Want of memory leaves the list as it was.
    pub fn push(&mut self, turn: Turn) -> Result<(), AllocError>
        ensures ok { OnOk result (self.new ≡ self.old ++ turn ∷ []) }
        ensures err { OnErr result (self.new ≡ self.old) }
    {
        self.kinds.reserve(1)?;
        push_point(&mut self.points, turn)?;
        self.kinds.push_reserved(turn.kind());
        Ok(())
    }

    /// The turns, from left to right.
    pub fn iter(&self) -> TurnsIter<'_>
        ensures { result ≡ self.now }
    {
        TurnsIter {
            kinds: self.kinds.as_slice(),
            points: self.points.as_slice(),
        }
    }
}

/// An iterator of turns, which contracts see as the list of those that are left.
#[derive(Drop)]
pub struct TurnsIter<'a> {
    kinds: &'a [TurnKind],
    points: &'a [Point],
}

impl<'a> Model for TurnsIter<'a> {
    ghost use Rattle.std.specs.Prelude.{List};
    ghost use Rattle.cif_form.specs.declared.command.Turn.{Turn};

    ghost Value = { List Turn };

    ghost use Rattle.cif_form.specs.Turning.{turns_of};

    ghost view = { λ t. turns_of t.kinds.now t.points.now };
}

impl<'a> Iterator for TurnsIter<'a> {
    type Item = Turn;

    ghost next_gives = { YieldsFirst (λ turns. turns) };

    ghost remaining = { item_count (λ turns. turns) };

    fn next(&mut self) -> Option<Turn> {
        let (kind, kinds) = self.kinds.split_first()?;
        let (turn, points) = kind.turn(self.points)?;
        self.kinds = kinds;
        self.points = points;
        Some(turn)
    }
}
