//! The templates of functions.

ghost use Rattle.std.specs.Prelude.{IfOk, Some};
ghost use Rattle.mp_written.specs.Functions.{functions};
ghost use Rattle.written_meanings.specs.Meanings.{AreMeanings};
ghost use Rattle.expansion_laws.specs.Lawful.{IsLawfulProgram};
ghost use Rattle.expansion.specs.Templates.{AreAllMade, Forgets, IsReady, IsSlot};

use crate::item::{Item, Slot, Stop};
use crate::needs::{last_users, read};
use crate::words::word;
use mp_base::List;
use mp_written::Program;
use std::alloc::{AllocError, Global};
use written_meanings::Meanings;

/// What is kept of a function, by its body.
fn slot_of(
    alloc: Global,
    program: &Program,
    meanings: &Meanings,
    slots: &List<Slot>,
    function: u32,
    body: u32,
) -> Result<Slot, AllocError>
    requires { IsReady program.now meanings.now slots.now (Some function) body }
    ensures { IfOk result (IsSlot program.now function body) }
{
    match word(alloc, program, meanings, slots, Some(function), body) {
        Ok(items) => Ok(Slot::Made(items)),
        Err(Stop::TooLong) => Ok(Slot::TooMany),
        Err(Stop::NoMemory) => Err(AllocError),
    }
}

/// For each function the functions of which its body is the last user, as a chain: the first of each, and the next of
/// each, one more than the number, and 0 at the end.
#[derive(Drop)]
struct Chains {
    first: List<u32>,
    next: List<u32>,
}

fn chains_of(alloc: Global, users: &[u32]) -> Result<Chains, AllocError> {
    let mut first = List::from_vec(Vec::from_elem(alloc, 0u32, users.len())?);
    let mut next = List::new(alloc);
    let mut number = 0u32;
    for user in users {
        number = number.checked_add(1).ok_or(AllocError)?;
        let mut behind = 0;
        if *user > 0 && ((*user - 1) as usize) < first.len() {
            behind = *first.at(*user - 1);
            first.set(*user - 1, number);
        }
        next.push(behind)?;
    }
    Ok(Chains { first, next })
}

/// Forgets the templates that nobody needs behind a function.
fn release(slots: &mut List<Slot>, chains: &Chains, function: u32)
    ensures { Forgets slots.old slots.new }
{
    let mut number = read(chains.first.as_slice(), function);
    for _ in 0..slots.len() {
        if number == 0 || number as usize > slots.len() {
            return;
        }
        slots.set(number - 1, Slot::Unmade);
        number = read(chains.next.as_slice(), number - 1);
    }
}

/// The templates of the functions that something needs, in order, since one uses those before it. Each is forgotten
/// behind its last user, so that few are at hand at a time.
pub(crate) fn templates(
    alloc: Global,
    program: &Program,
    meanings: &Meanings,
) -> Result<List<Slot>, AllocError>
    requires meant { AreMeanings program.now meanings.now }
    requires lawful { IsLawfulProgram program.now }
    ensures { IfOk result (AreAllMade program.now) }
{
    let users = last_users(alloc, program, meanings)?;
    let chains = chains_of(alloc, users.as_slice())?;
    let mut slots = List::new(alloc);
    let mut function = 0u32;
    for body in meanings.bodies.as_slice() {
        let slot = if read(users.as_slice(), function) > 0 {
            slot_of(alloc, program, meanings, &slots, function, body.expr)?
        } else {
            Slot::Unmade
        };
        slots.push(slot)?;
        release(&mut slots, &chains, function);
        function = function.checked_add(1).ok_or(AllocError)?;
    }
    Ok(slots)
}
