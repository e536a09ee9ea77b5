//! The guards and values of forms.

ghost use Rattle.std.specs.Prelude.{◌<◌, IfOk, length, map};
ghost use Rattle.std.specs.List.{AllByRecursion};
ghost use Rattle.mp_program.specs.Tree.{exprs_in};
ghost use Rattle.mp_program.specs.declared.program.Branch as spec;
ghost use Rattle.expansion.specs.Walking.{AreTops, Marks};

use mp_base::List;
use mp_program::{Branch, FormKind};
use mp_written::Program;
use std::alloc::{AllocError, Global};

fn mark_guards(branches: &[Branch], flags: &mut List<bool>)
    requires { AllByRecursion (λ v. v < length flags.old) (map (λ (b : spec.Branch). b.guard) branches.now) }
    ensures { Marks (map (λ (b : spec.Branch). b.guard) branches.now) flags.old flags.new }
{
    for branch in branches {
        flags.set(branch.guard, true);
    }
}

fn mark(kind: &FormKind, flags: &mut List<bool>)
    requires { AllByRecursion (λ v. v < length flags.old) (exprs_in kind.now) }
    ensures { Marks (exprs_in kind.now) flags.old flags.new }
{
    match kind {
        FormKind::Set { value, .. } => flags.set(*value, true),
        FormKind::Cond(branches) => mark_guards(branches.as_slice(), flags),
        _ => {}
    }
}

/// For each expression, whether it is the guard of a branch or the value of a `setq`.
pub fn tops(alloc: Global, program: &Program) -> Result<List<bool>, AllocError>
    ensures { IfOk result (AreTops program.now) }
{
    let count = program.exprs.len();
    let mut flags = List::from_vec(Vec::from_elem(alloc, false, count)?);
    for form in program.forms.as_slice() {
        mark(&form.kind, &mut flags);
    }
    Ok(flags)
}
