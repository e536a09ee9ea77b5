//! In which bodies expressions stand.

ghost use Rattle.std.specs.Prelude.{◌≡◌, ◌<◌, ℕ, IfOk, Some, All, Contains, length, map, slice_get};
ghost use Rattle.mp_written.specs.Tree.{operands};
ghost use Rattle.mp_written.specs.Functions.{functions};
ghost use Rattle.written_meanings.specs.Meanings.{body_of};
ghost use Rattle.written_meanings.specs.Owners.{AreOwners, IsPassedOn};

use crate::functions::Body;
use mp_base::List;
use mp_written::laws::sound;
use mp_written::{ExprKind, Program};
use std::alloc::{AllocError, Global};

// What stands directly in an expression.
fn operands(kind: &ExprKind) -> &[u32]
    ensures { result.now ≡ operands kind.now }
{
    match kind {
        ExprKind::Apply { args, .. } | ExprKind::Use { args, .. } => args.as_slice(),
        _ => &[],
    }
}

// These expressions stand where another does.
fn pass_on(owners: &mut List<Option<u32>>, owner: Option<u32>, exprs: &[u32])
    requires { All (λ e. e < length owners.old) exprs.now }
    ensures { IsPassedOn owner exprs.now owners.old owners.new }
{
    for expr in exprs {
        owners.set(*expr, owner);
    }
}

// The functions whose bodies expressions are.
fn owners_of_bodies(
    alloc: Global,
    program: &Program,
    bodies: &[Body],
) -> Result<List<Option<u32>>, AllocError>
    requires { bodies.now ≡ map body_of (functions program.now) }
    ensures { IfOk result (AreOwners program.now 0) }
{
    sound();
    let mut owners = List::from_vec(Vec::from_elem(alloc, None, program.exprs.len())?);
    for (number, body) in bodies.iter().enumerate() {
        let Ok(number) = u32::try_from(number) else {
            return Err(AllocError);
        };
        owners.set(body.expr, Some(number));
    }
    Ok(owners)
}

/// The functions in whose bodies the expressions stand.
pub fn owners(
    alloc: Global,
    program: &Program,
    bodies: &[Body],
) -> Result<List<Option<u32>>, AllocError>
    requires { bodies.now ≡ map body_of (functions program.now) }
    ensures { IfOk result (AreOwners program.now (length program.now.exprs)) }
{
    sound();
    let mut owners = owners_of_bodies(alloc, program, bodies)?;
    for (e, expr) in program.exprs.as_slice().iter().enumerate() {
        let owner = owners.as_slice()[e];
        pass_on(&mut owners, owner, operands(&expr.kind));
    }
    Ok(owners)
}
