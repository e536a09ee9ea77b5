//! Calls: their turns, composed once, and where they lead.

ghost use Rattle.std.specs.Prelude.{◌≡◌, ◌^◌, ℕ, List, All, map, IfOk, OnOk};
ghost use Rattle.cif_form.specs.declared.command.Turn.{Turn};
ghost use Rattle.cif_form.specs.Place.{Scale};
ghost use Rattle.cif_list.specs.Turning.{wide_turn};
ghost use Rattle.cif_place.specs.Placing.{IsFitRatio, IsHeld, scale_of};
ghost use Rattle.cif_place.specs.Turning.{IsShortTurn, IsTurned, IsHeldTurned};
ghost use Rattle.cif_flat.specs.Calling.{AreCalls, IsCallAt, IsCalled};

use crate::fault::Fault;
use crate::table::{Table, found, set};
use cif_form::WALK_LIMIT;
use cif_list::{Cif, ShortTurn};
use cif_place::{Placement, Ratio, Turned};
use std::alloc::AllocError;

/// What the turns of a call come to at a scale.
#[derive(Clone, Copy, Drop)]
pub(crate) struct Composed {
    pub ratio: Ratio,
    pub turned: Turned,
}

/// What the turns of the call at an index come to, composed anew only where they weren't before.
pub(crate) fn turned_at(
    calls: &mut Table<Composed>,
    items: &Cif,
    at: usize,
    ratio: Ratio,
    turns: &[ShortTurn],
) -> Result<Turned, AllocError>
    requires calls { AreCalls items.now calls.old }
    requires at { IsCallAt items.now at (map wide_turn turns.now) }
    requires fit { IsFitRatio ratio }
    requires short { All IsShortTurn (map wide_turn turns.now) }
    ensures turned { IfOk result (IsTurned (scale_of ratio) (map wide_turn turns.now)) }
    ensures held { IfOk result (IsHeldTurned (2 ^ 104)) }
    ensures calls { OnOk result (AreCalls items.now calls.new) }
{
    if let Some(composed) = found(calls, at as u64) {
        if composed.ratio.is_same(ratio) {
            return Ok(composed.turned);
        }
    }
    let turned = Turned::of_all(ratio, turns);
    set(calls, at as u64, Composed { ratio, turned })?;
    Ok(turned)
}

/// The placement of a call of a definition with this scale, or the first rule of its turns, that scale and the count
/// that is broken.
pub(crate) fn placement_of(turned: Turned, ratio: Ratio, count: u64) -> Result<Placement, Fault>
    ensures called { (s : Scale) (ts : List Turn) → IsTurned s ts turned → IsCalled s ts ratio count result }
    ensures held { IsHeldTurned (2 ^ 104) turned → IfOk result (IsHeld (2 ^ 104)) }
{
    match turned {
        Turned::Askew => Err(Fault::F3),
        Turned::Uneven => Err(Fault::F4),
        Turned::Far => {
            if !ratio.is_scale() {
                return Err(Fault::F4);
            }
            if count >= WALK_LIMIT {
                return Err(Fault::F7);
            }
            Err(Fault::F8)
        }
        Turned::Placed(placement) => {
            if !ratio.is_scale() {
                return Err(Fault::F4);
            }
            if count >= WALK_LIMIT {
                return Err(Fault::F7);
            }
            Ok(placement)
        }
    }
}
