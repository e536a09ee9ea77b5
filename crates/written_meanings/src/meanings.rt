//! What each expression means.

ghost use Rattle.std.specs.Prelude.{◌≡◌, IfOk, length, List};
ghost use Rattle.mp_written.specs.Functions.{Function};
ghost use Rattle.written_meanings.specs.Functions.{AreFunctions};
ghost use Rattle.written_meanings.specs.Meanings.{argument, args_around, used, usable, AreMeanings};

use crate::functions::{Body, Functions};
use crate::owners::owners;
use mp_base::List;
use mp_written::{Expr, Program};
use std::alloc::{AllocError, Global};

/// Where an expression stands, and what it means there.
#[derive(Clone, Copy)]
pub struct Meaning {
    /// The number of the function in whose body it stands, if it stands in one.
    pub owner: Option<u32>,
    /// Of a name, which argument of that function it is, if it is one.
    pub argument: Option<u32>,
    /// Of a use, the number of the function that its head names, if it names one that may be used there.
    pub function: Option<u32>,
}

/// The bodies of a program's functions, in the order of their definitions, and what each expression means.
#[derive(Drop)]
pub struct Meanings {
    pub bodies: List<Body>,
    pub exprs: List<Meaning>,
}

// What an expression means, by its owner.
fn meaning_of(functions: &Functions<'_>, owner: Option<u32>, expr: &Expr) -> Meaning
    ensures owner { result.owner ≡ owner }
    ensures argument { (fs : List Function) → AreFunctions fs functions.now
        → result.argument ≡ argument (args_around fs owner) expr.now.kind }
    ensures function { (fs : List Function) → AreFunctions fs functions.now
        → result.function ≡ used (usable fs owner) expr.now.kind }
{
    Meaning {
        owner,
        argument: functions.argument(owner, &expr.kind),
        function: functions.used(owner, &expr.kind),
    }
}

/// What the expressions of a program mean. Time and memory are linear in its size.
///
/// # Errors
///
/// Want of memory, also where there are 2^32 functions or arguments.
pub fn meanings_of(alloc: Global, program: &Program) -> Result<Meanings, AllocError>
    ensures { IfOk result (AreMeanings program.now) }
{
    let functions = Functions::of(alloc, program.defs.as_slice())?;
    let owners = owners(alloc, program, functions.bodies.as_slice())?;
    let owners = owners.as_slice();
    let mut exprs = List::new(alloc);
    for (e, expr) in program.exprs.as_slice().iter().enumerate() {
        exprs.push(meaning_of(&functions, owners[e], expr))?;
    }
    let Functions { bodies, .. } = functions;
    Ok(Meanings { bodies, exprs })
}
