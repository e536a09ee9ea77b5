//! The enables of forms in forms.

ghost use Rattle.std.specs.Prelude.{◌≡◌, ◌<◌, ℕ, Contains, length, OnOk, IfOk, Some, None, slice_set, slice_index_or};
ghost use Rattle.mp_program.specs.declared.program.Branch as spec;
ghost use Rattle.process_plan.specs.Enables.{copy_of};
ghost use Rattle.process_enables.specs.Forms.{Assigns, EntersBranch, Narrows, EntersBranches};
ghost use Rattle.process_enables.specs.Forms.{EnablesInner, EnablesBelow};

use crate::exprs::{put_both, put_negation};
use mp_base::{List, NoMemory};
use mp_program::laws::sound;
use mp_program::{Branch, FormKind, Program};
use process_plan::Enable;
use rtl_form::RtlExpr;
use std::alloc::Global;

/// Gives a form its enable. A second one is refused: by the type of programs no form stands in two places.
pub(crate) fn assign(
    enables: &mut List<Option<Enable>>,
    form: u32,
    enable: Enable,
) -> Result<(), NoMemory>
    requires { form < length enables.old }
    ensures set { OnOk result (enables.new ≡ slice_set enables.old form (Some enable)) }
    ensures free { OnOk result (slice_index_or enables.old form (Some enable) ≡ None) }
{
    if enables.at(form).is_some() {
        return Err(NoMemory);
    }
    enables.set(form, Some(enable));
    Ok(())
}

/// Gives forms an enable.
pub(crate) fn assign_all(
    enables: &mut List<Option<Enable>>,
    forms: &[u32],
    enable: Enable,
) -> Result<(), NoMemory>
    requires { (f : ℕ) → Contains forms.now f → f < length enables.old }
    ensures { OnOk result (Assigns forms.now enable enables.old enables.new) }
{
    for form in forms {
        assign(enables, *form, enable)?;
    }
    Ok(())
}

/// The copy of an expression of the program.
pub(crate) fn copy_of(program: &Program, expr: u32) -> Result<u32, NoMemory>
    requires { expr < length program.now.exprs }
    ensures { IfOk result (λ i. i ≡ copy_of program.now expr) }
{
    let behind = program.exprs.len() - expr as usize;
    let Ok(index) = u32::try_from(behind) else {
        return Err(NoMemory);
    };
    index.checked_add(1).ok_or(NoMemory)
}

// Gives the forms of a branch their enable, and answers the copy of its guard. The enable that is passed tells that no
// guard before was 1.
fn enter_branch(
    alloc: Global,
    program: &Program,
    exprs: &mut List<RtlExpr>,
    enables: &mut List<Option<Enable>>,
    enable: Enable,
    branch: &Branch,
) -> Result<u32, NoMemory>
    requires inside { (f : ℕ) → Contains branch.now.body f → f < length enables.old }
    requires guard { branch.now.guard < length program.now.exprs }
    ensures guard { IfOk result (λ i. i ≡ copy_of program.now branch.now.guard) }
    ensures entered { OnOk result
        (EntersBranch program.now enable branch.now exprs.old exprs.new enables.old enables.new) }
{
    let guard = copy_of(program, branch.guard)?;
    let expr = put_both(alloc, exprs, enable.expr, guard)?;
    let origin = enable.origin;
    assign_all(enables, branch.body.as_slice(), Enable { origin, expr })?;
    Ok(guard)
}

// Adds what is 1 where another is and a guard is not.
fn narrow(alloc: Global, exprs: &mut List<RtlExpr>, rest: u32, guard: u32) -> Result<u32, NoMemory>
    ensures { IfOk result (Narrows rest guard exprs.old exprs.new) }
{
    let unguarded = put_negation(alloc, exprs, guard)?;
    put_both(alloc, exprs, rest, unguarded)
}

// Gives the forms of branches their enables. The enable that is passed tells that no guard before was 1.
fn enter_branches(
    alloc: Global,
    program: &Program,
    exprs: &mut List<RtlExpr>,
    enables: &mut List<Option<Enable>>,
    enable: Enable,
    branches: &[Branch],
) -> Result<(), NoMemory>
    requires inside { (b : spec.Branch) (f : ℕ) → Contains branches.now b → Contains b.body f → f < length enables.old }
    requires guards { (b : spec.Branch) → Contains branches.now b → b.guard < length program.now.exprs }
    ensures { OnOk result (EntersBranches program.now enable branches.now exprs.old exprs.new enables.old enables.new) }
{
    match branches {
        [] => Ok(()),
        [last] => {
            enter_branch(alloc, program, exprs, enables, enable, last)?;
            Ok(())
        }
        [first, more @ ..] => {
            let guard = enter_branch(alloc, program, exprs, enables, enable, first)?;
            let expr = narrow(alloc, exprs, enable.expr, guard)?;
            let origin = enable.origin;
            let later = Enable { origin, expr };
            enter_branches(alloc, program, exprs, enables, later, more)
        }
    }
}

// Gives the forms in a form their enables, where it has one itself.
fn enable_inner(
    alloc: Global,
    program: &Program,
    exprs: &mut List<RtlExpr>,
    enables: &mut List<Option<Enable>>,
    form: u32,
) -> Result<(), NoMemory>
    requires form { form < length program.now.forms }
    requires size { length enables.old ≡ length program.now.forms }
    ensures { OnOk result (EnablesInner program.now form exprs.old exprs.new enables.old enables.new) }
{
    sound(program);
    let Some(enable) = *enables.at(form) else {
        return Ok(());
    };
    match &program.forms.at(form).kind {
        FormKind::Cond(branches) => {
            let branches = branches.as_slice();
            enter_branches(alloc, program, exprs, enables, enable, branches)
        }
        FormKind::Par(forms) => assign_all(enables, forms.as_slice(), enable),
        _ => Ok(()),
    }
}

/// Gives all forms in forms that have enables their enables. A form stands before those in it, so one pass does.
pub(crate) fn enable_all_inner(
    alloc: Global,
    program: &Program,
    exprs: &mut List<RtlExpr>,
    enables: &mut List<Option<Enable>>,
) -> Result<(), NoMemory>
    requires { length enables.old ≡ length program.now.forms }
    ensures { OnOk result
        (EnablesBelow program.now (length program.now.forms) exprs.old exprs.new enables.old enables.new) }
{
    sound(program);
    let Ok(count) = u32::try_from(program.forms.len()) else {
        return Err(NoMemory);
    };
    for form in 0..count {
        enable_inner(alloc, program, exprs, enables, form)?;
    }
    Ok(())
}
