//! The earliest `setq` of some definitions.

ghost use Rattle.std.specs.Prelude.{◌≡◌, ◌<◌, ◌≤◌, ◌↔◌, true, MatchOption};
ghost use Rattle.mp_base.specs.declared.refusal.Place.{Place};
ghost use Rattle.mp_order.specs.Chains.{IsSet, SetsFlagged, FlaggedSet};

use crate::table::read;
use mp_base::Place;
use mp_program::{FormKind, Program};
use name_meanings::Meanings;

/// A `setq`: its place, and the index of the definition that it sets.
#[derive(Clone, Copy)]
pub struct Setting {
    pub place: Place,
    pub target: u32,
}

/// Whether a form is a `setq`.
fn is_set(kind: &FormKind) -> bool
    ensures { (result ≡ true) ↔ IsSet kind.now }
{
    matches!(kind, FormKind::Set { .. })
}

/// Whether a place stands before what was found.
fn precedes(place: Place, found: Option<Setting>) -> bool
    ensures { MatchOption found (result ≡ true) (λ setting. (result ≡ true) ↔ (place.offset < setting.place.offset)) }
{
    match found {
        None => true,
        Some(setting) => place.offset < setting.place.offset,
    }
}

/// The earliest `setq` of a definition with a flag above 0.
pub fn earliest(program: &Program, meanings: &Meanings, flags: &[u32]) -> Option<Setting>
    ensures { MatchOption result ((at : Place) → ¬ FlaggedSet program.now meanings.now flags.now at)
        (λ found. SetsFlagged program.now meanings.now flags.now found.target found.place
        × ((at : Place) → FlaggedSet program.now meanings.now flags.now at → found.place.offset ≤ at.offset)) }
{
    let mut found: Option<Setting> = None;
    for (n, form) in program.forms.as_slice().iter().enumerate() {
        let target = read(meanings.targets.as_slice(), n);
        if is_set(&form.kind) && read(flags, target as usize) > 0 && precedes(form.place, found) {
            found = Some(Setting {
                place: form.place,
                target,
            });
        }
    }
    found
}
