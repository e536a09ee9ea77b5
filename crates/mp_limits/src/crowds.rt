//! How many names a program may have: rule E40.

ghost use Rattle.std.specs.Prelude.{◌≡◌, ◌++◌, ◌&&◌, IfOk, map, filter, not, None};
ghost use Rattle.mp_program.specs.declared.program.Def.{Def};
ghost use Rattle.mp_program.specs.declared.program.Process.{Process};
ghost use Rattle.mp_program.specs.Names.{is_supply};
ghost use Rattle.mp_rules.specs.Breaking.{IsEarliest};
ghost use Rattle.mp_rules.specs.Rules.{E40};
ghost use Rattle.mp_limits.specs.Finding.{named_from};

use mp_base::Place;
use mp_program::Program;
use mp_rules::{NAMING_LIMIT, earlier};
use std::alloc::{AllocError, Global};

// The offsets of all that has a name.
fn offsets(alloc: Global, program: &Program) -> Result<Vec<u64>, AllocError>
    ensures { IfOk result (λ offsets. offsets.items
        ≡ map (λ (d : Def). (d.place).offset) (filter (λ (d : Def). not (is_supply d.what)) program.now.defs)
        ++ map (λ (q : Process). (q.place).offset) program.now.processes) }
{
    let defs = program
        .defs
        .as_slice()
        .iter()
        .filter(|def| !def.what.is_supply())
        .map(|def| def.place.offset);
    let processes = program
        .processes
        .as_slice()
        .iter()
        .map(|process| process.place.offset);
    defs.chain(processes).collect(alloc)
}

// The earliest of all that has a name and doesn't stand before an offset.
fn named_from(program: &Program, offset: u64) -> Option<Place>
    ensures { result ≡ named_from program.now offset }
{
    let found = program
        .defs
        .as_slice()
        .iter()
        .filter_map(|def| (!def.what.is_supply() && offset <= def.place.offset).then_some(
            def.place,
        ))
        .fold(None, |found, at| earlier(found, at));
    program
        .processes
        .as_slice()
        .iter()
        .filter_map(|process| (offset <= process.place.offset).then_some(process.place))
        .fold(found, |found, at| earlier(found, at))
}

/// Rule E40: the earliest of all that has a name and as many others that don't stand after it as may have one.
pub fn crowded_name(alloc: Global, program: &Program) -> Result<Option<Place>, AllocError>
    ensures { IfOk result (IsEarliest (E40 program.now)) }
{
    let mut offsets = offsets(alloc, program)?;
    offsets.sort_unstable();
    if offsets.len() <= NAMING_LIMIT {
        return Ok(None);
    }
    Ok(named_from(program, offsets[NAMING_LIMIT]))
}
