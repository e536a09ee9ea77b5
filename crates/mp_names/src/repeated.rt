//! Rule E20: names and supplies that are defined twice.

ghost use Rattle.std.specs.Prelude.{◌≡◌, ◌↔◌, IsTrue};
ghost use Rattle.mp_rules.specs.Naming.{is_reserved};
ghost use Rattle.mp_rules.specs.Rules.{E20};
ghost use Rattle.mp_rules.specs.Breaking.{IsEarliest};
ghost use Rattle.mp_names.specs.Finding.{earliest};
ghost use Rattle.name_meanings.specs.Table.{IsNameTable};
ghost use Rattle.mp_names.specs.Repeats.{is_repeated, repeated_def, repeated_process, Repeats, RepeatsSupply};

use mp_base::Place;
use mp_program::{Def, Process, Program, What};
use mp_rules::{earlier, earlier_of};
use name_meanings::NameTable;

// Whether nothing may have this name.
fn is_reserved(name: &[u8]) -> bool
    ensures { result ≡ is_reserved name.now }
{
    name == b"t".as_slice()
        || name == b"f".as_slice()
        || name == b"vdd".as_slice()
        || name == b"gnd".as_slice()
        || name == b"phia".as_slice()
        || name == b"phib".as_slice()
        || name == b"phic".as_slice()
}

// Whether a name is reserved, or two that have it don't stand after a place.
fn is_repeated(names: &NameTable<'_>, name: &[u8], place: Place) -> bool
    ensures { result ≡ is_repeated names.now name.now place }
{
    is_reserved(name)
        || match names.named(name).second {
            Some(second) => second <= place.offset,
            None => false,
        }
}

// The place of a definition whose name is repeated.
fn repeated_def(names: &NameTable<'_>, def: &Def) -> Option<Place>
    ensures { result ≡ repeated_def names.now def.now }
{
    if !def.what.is_supply() && is_repeated(names, def.name.bytes(), def.place) {
        Some(def.place)
    } else {
        None
    }
}

// The place of a process whose name is repeated.
fn repeated_process(names: &NameTable<'_>, process: &Process) -> Option<Place>
    ensures { result ≡ repeated_process names.now process.now }
{
    if is_repeated(names, process.name.bytes(), process.place) {
        Some(process.place)
    } else {
        None
    }
}

// The earliest of these definitions whose name is repeated.
fn repeated_defs(names: &NameTable<'_>, defs: &[Def]) -> Option<Place>
    ensures { result ≡ earliest (repeated_def names.now) defs.now }
{
    defs.iter().fold(
        None,
        |found, def| earlier_of(found, repeated_def(names, def)),
    )
}

// The earliest of these processes whose name is repeated.
fn repeated_processes(names: &NameTable<'_>, processes: &[Process]) -> Option<Place>
    ensures { result ≡ earliest (repeated_process names.now) processes.now }
{
    processes.iter().fold(None, |found, process| {
        earlier_of(found, repeated_process(names, process))
    })
}

// Whether two kinds are the same.
fn is_same(what: What, other: What) -> bool
    ensures { IsTrue result ↔ (what ≡ other) }
{
    what == other
}

// The earliest definition of a kind that has another of this kind before it in the list.
fn repeated_kind(defs: &[Def], kind: What) -> Option<Place>
    ensures { IsEarliest (Repeats defs.now kind) result }
{
    let mut found = None;
    let mut seen = false;
    for def in defs {
        if is_same(def.what, kind) {
            if seen {
                found = earlier(found, def.place);
            }
            seen = true;
        }
    }
    found
}

// The earliest second definition of a supply.
fn repeated_supply(defs: &[Def]) -> Option<Place>
    ensures { IsEarliest (RepeatsSupply defs.now) result }
{
    let found = earlier_of(
        repeated_kind(defs, What::Power),
        repeated_kind(defs, What::Ground),
    );
    let found = earlier_of(found, repeated_kind(defs, What::Phia));
    let found = earlier_of(found, repeated_kind(defs, What::Phib));
    earlier_of(found, repeated_kind(defs, What::Phic))
}

/// Rule E20: the earliest name that is reserved or that another has before it, or second definition of a supply.
pub fn repeated_name(program: &Program, names: &NameTable<'_>) -> Option<Place>
    requires { IsNameTable program.now names.now }
    ensures { IsEarliest (E20 program.now) result }
{
    let defs = program.defs.as_slice();
    let found = earlier_of(
        repeated_defs(names, defs),
        repeated_processes(names, program.processes.as_slice()),
    );
    earlier_of(found, repeated_supply(defs))
}
