//! Rule E38: names that functions and arguments may not have.

ghost use Rattle.std.specs.Prelude.{◌≡◌, ℕ, IfOk};
ghost use Rattle.std.specs.List.{list_any};
ghost use Rattle.mp_program.specs.Names.{is_same};
ghost use Rattle.mp_rules.specs.Breaking.{IsEarliest};
ghost use Rattle.written_rules.specs.Naming.{operators};
ghost use Rattle.written_rules.specs.Rules.{E38};
ghost use Rattle.written_names.specs.Table.{NamesWritten};
ghost use Rattle.written_names.specs.Taken.{is_taken, taken_at, ArgTakenAt, TakenIn};

use mp_base::Place;
use mp_rules::earlier_of;
use mp_written::{Arg, Def, Program, What};
use name_meanings::NameTable;
use std::alloc::{AllocError, Global};
use written_meanings::Firsts;

// Whether this is the name of an operator.
fn is_operator(name: &[u8]) -> bool
    ensures { result ≡ list_any (is_same name.now) operators }
{
    name == b"+".as_slice()
        || name == b"-".as_slice()
        || name == b"1+".as_slice()
        || name == b"1-".as_slice()
        || name == b"word-and".as_slice()
        || name == b"word-or".as_slice()
        || name == b"word-xor".as_slice()
        || name == b"word-not".as_slice()
        || name == b"<<".as_slice()
        || name == b">>".as_slice()
        || name == b"and".as_slice()
        || name == b"or".as_slice()
        || name == b"nor".as_slice()
        || name == b"nand".as_slice()
        || name == b"xor".as_slice()
        || name == b"not".as_slice()
        || name == b"bit".as_slice()
        || name == b"=0".as_slice()
        || name == b"=".as_slice()
        || name == b"<".as_slice()
}

// Whether no argument may have this name.
fn is_taken(names: &NameTable<'_>, name: &[u8]) -> bool
    ensures { result ≡ is_taken names.now name.now }
{
    name == b"t".as_slice() || name == b"f".as_slice() || names.named(name).least.is_some()
}

// The place of an argument whose name is taken, or one of these that stand before it.
fn taken_at(names: &NameTable<'_>, before: &Firsts<'_>, arg: &Arg) -> Option<Place>
    ensures { result ≡ taken_at names.now before.now arg.now }
{
    let name = arg.name.bytes();
    (is_taken(names, name) || before.number(name).is_some()).then_some(arg.place)
}

// The earliest argument whose name is taken, or stands before it.
fn taken_argument(
    alloc: Global,
    names: &NameTable<'_>,
    args: &[Arg],
) -> Result<Option<Place>, AllocError>
    ensures { IfOk result (IsEarliest (λ at. (i : ℕ) × ArgTakenAt names.now args.now i at)) }
{
    let mut before = Firsts::new(alloc);
    let mut found = None;
    for (number, arg) in args.iter().enumerate() {
        let Ok(number) = u32::try_from(number) else {
            return Err(AllocError);
        };
        found = earlier_of(found, taken_at(names, &before, arg));
        before.note(arg.name.bytes(), number)?;
    }
    Ok(found)
}

// The earliest place in a definition where a name is taken.
fn taken_in(alloc: Global, names: &NameTable<'_>, def: &Def) -> Result<Option<Place>, AllocError>
    ensures { IfOk result (IsEarliest (TakenIn names.now def.now)) }
{
    let What::Function { args, .. } = &def.what else {
        return Ok(None);
    };
    let operator = is_operator(def.name.bytes()).then_some(def.place);
    Ok(earlier_of(operator, taken_argument(alloc, names, args.as_slice())?))
}

/// Rule E38: the earliest function with the name of an operator, or argument whose name is taken. Errors: want of
/// memory.
pub fn taken_name(
    alloc: Global,
    program: &Program,
    names: &NameTable<'_>,
) -> Result<Option<Place>, AllocError>
    requires { NamesWritten program.now names.now }
    ensures { IfOk result (IsEarliest (E38 program.now)) }
{
    let mut found = None;
    for def in program.defs.as_slice() {
        found = earlier_of(found, taken_in(alloc, names, def)?);
    }
    Ok(found)
}
