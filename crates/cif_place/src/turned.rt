//! The turns of a call.

ghost use Rattle.std.specs.Prelude.{◌≡◌, ◌^◌, [], ◌∷◌, All, map};
ghost use Rattle.lam_geom.specs.Moves.{far};
ghost use Rattle.cif_form.specs.declared.command.Turn.TheVariants.{Move, Rotate};
ghost use Rattle.cif_form.specs.Place.{Scale};
ghost use Rattle.cif_list.specs.Turning.{wide_turn};
ghost use Rattle.cif_place.specs.Placing.{IsShortPoint, IsWithin, IsFitRatio, scale_of};
ghost use Rattle.cif_place.specs.Turning.{IsShortTurn, IsTurned, IsHeldTurned, IsMoved, joined, turn_of};

use crate::edges::FAR;
use crate::placement::Placement;
use crate::ratio::{Ratio, twice_more};
use cif_form::Turn;
use cif_list::ShortTurn;
use lam_geom::Point;

/// What some turns of a call come to at a scale: a fault, the first by its rule, or a placement.
#[derive(Clone, Copy, Drop)]
pub enum Turned {
    /// A rotation is off the axes.
    Askew,
    /// A move isn't whole.
    Uneven,
    /// A move is too far.
    Far,
    /// Together they are this placement.
    Placed(Placement),
}

fn turn(swaps: bool, flips_x: bool, flips_y: bool) -> Placement
    ensures { result ≡ turn_of swaps flips_x flips_y }
{
    Placement {
        swaps,
        flips_x,
        flips_y,
        dx: 0,
        dy: 0,
    }
}

fn moved(dx: i128, dy: i128) -> Turned
    requires small { IsWithin (2 ^ 64) dx × IsWithin (2 ^ 64) dy }
    ensures { IsMoved dx dy result }
{
    if dx < -FAR || FAR < dx || dy < -FAR || FAR < dy {
        return Turned::Far;
    }
    Turned::Placed(Placement {
        swaps: false,
        flips_x: false,
        flips_y: false,
        dx,
        dy,
    })
}

fn shifted(ratio: Ratio, by: Point) -> Turned
    requires fit { IsFitRatio ratio }
    requires short { IsShortPoint by }
    ensures turned { IsTurned (scale_of ratio) (Move by ∷ []) result }
    ensures held { IsHeldTurned far result }
{
    let Some(dx) = ratio.scaled(twice_more(by.x, 0)) else {
        return Turned::Uneven;
    };
    let Some(dy) = ratio.scaled(twice_more(by.y, 0)) else {
        return Turned::Uneven;
    };
    moved(dx, dy)
}

fn rotated(to: Point) -> Turned
    ensures turned { (s : Scale) → IsTurned s (Rotate to ∷ []) result }
    ensures held { IsHeldTurned far result }
{
    if to.y == 0 {
        if to.x > 0 {
            return Turned::Placed(turn(false, false, false));
        }
        if to.x < 0 {
            return Turned::Placed(turn(false, true, true));
        }
    } else if to.x == 0 {
        if to.y > 0 {
            return Turned::Placed(turn(true, true, false));
        }
        return Turned::Placed(turn(true, false, true));
    }
    Turned::Askew
}

impl Turned {
    fn of(ratio: Ratio, turned: &Turn) -> Turned
        requires fit { IsFitRatio ratio }
        requires short { IsShortTurn turned.now }
        ensures turned { IsTurned (scale_of ratio) (turned.now ∷ []) result }
        ensures held { IsHeldTurned far result }
    {
        match turned {
            Turn::Move(by) => shifted(ratio, *by),
            Turn::MirrorX => Turned::Placed(turn(false, true, false)),
            Turn::MirrorY => Turned::Placed(turn(false, false, true)),
            Turn::Rotate(to) => rotated(*to),
        }
    }

    /// These turns, and then others.
    fn and(self, others: Turned) -> Turned
        requires these { IsHeldTurned (2 ^ 104) self }
        requires others { IsHeldTurned far others }
        ensures { result ≡ joined self others }
    {
        match self {
            Turned::Askew => Turned::Askew,
            Turned::Uneven => match others {
                Turned::Askew => Turned::Askew,
                _ => Turned::Uneven,
            },
            Turned::Far => match others {
                Turned::Placed(_) => Turned::Far,
                fault => fault,
            },
            Turned::Placed(first) => match others {
                Turned::Placed(then) => Turned::Placed(then.after(first)),
                fault => fault,
            },
        }
    }

    /// What the turns of a call come to, in the order of the call.
    pub fn of_all(ratio: Ratio, turns: &[ShortTurn]) -> Turned
        requires fit { IsFitRatio ratio }
        requires short { All IsShortTurn (map wide_turn turns.now) }
        ensures turned { IsTurned (scale_of ratio) (map wide_turn turns.now) result }
        ensures held { IsHeldTurned (2 ^ 104) result }
    {
        let mut all = Turned::Placed(turn(false, false, false));
        for turn in turns {
            all = all.and(Turned::of(ratio, &turn.turn()));
        }
        all
    }
}
