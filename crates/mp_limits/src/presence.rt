//! What a program must have: rules E34 to E36.

ghost use Rattle.std.specs.Prelude.{◌≡◌};
ghost use Rattle.std.specs.List.{list_all, list_any};
ghost use Rattle.mp_program.specs.Names.{is_reset};
ghost use Rattle.mp_rules.specs.Breaking.{IsEarliest};
ghost use Rattle.mp_rules.specs.Naming.{supplies};
ghost use Rattle.mp_rules.specs.Rules.{E34, E35, E36};
ghost use Rattle.mp_limits.specs.Finding.{defines, is_same_supply, stored_in};

use mp_base::Place;
use mp_program::{Def, Program, What};
use mp_rules::earlier;

fn has_reset(defs: &[Def]) -> bool
    ensures { result ≡ list_any is_reset defs.now }
{
    defs.iter().any(Def::is_reset)
}

// The earliest of registers, flags and processes.
fn stored(program: &Program) -> Option<Place>
    ensures { result ≡ stored_in program.now }
{
    let found = program
        .defs
        .as_slice()
        .iter()
        .filter_map(|def| def.what.is_stored().then_some(def.place))
        .fold(None, |found, at| earlier(found, at));
    program
        .processes
        .as_slice()
        .iter()
        .filter_map(|process| Some(process.place))
        .fold(found, |found, at| earlier(found, at))
}

/// Rule E34: the earliest register, flag or process, where there is no signal input `reset`.
pub fn without_reset(program: &Program) -> Option<Place>
    ensures { IsEarliest (E34 program.now) result }
{
    if has_reset(program.defs.as_slice()) {
        None
    } else {
        stored(program)
    }
}

fn is_same_supply(supply: What, what: What) -> bool
    ensures { result ≡ is_same_supply supply what }
{
    match (supply, what) {
        (What::Power, What::Power) => true,
        (What::Ground, What::Ground) => true,
        (What::Phia, What::Phia) => true,
        (What::Phib, What::Phib) => true,
        (What::Phic, What::Phic) => true,
        _ => false,
    }
}

fn defines(defs: &[Def], supply: What) -> bool
    ensures { result ≡ defines defs.now supply }
{
    defs.iter().any(|def| is_same_supply(supply, def.what))
}

fn are_supplied(defs: &[Def]) -> bool
    ensures { result ≡ list_all (defines defs.now) supplies }
{
    defines(defs, What::Power)
        && defines(defs, What::Ground)
        && defines(defs, What::Phia)
        && defines(defs, What::Phib)
        && defines(defs, What::Phic)
}

/// Rule E35: the place of a program in which a supply isn't defined.
pub fn missing_supply(program: &Program) -> Option<Place>
    ensures { IsEarliest (E35 program.now) result }
{
    if are_supplied(program.defs.as_slice()) {
        None
    } else {
        Some(program.place)
    }
}

/// Rule E36: the earliest process without a form.
pub fn empty_process(program: &Program) -> Option<Place>
    ensures { IsEarliest (E36 program.now) result }
{
    program
        .processes
        .as_slice()
        .iter()
        .filter_map(|process| (process.forms.len() == 0).then_some(process.place))
        .fold(None, |found, at| earlier(found, at))
}
