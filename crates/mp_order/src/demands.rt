//! What definitions read, by weights.

ghost use Rattle.std.specs.Prelude.{◌≡◌, ℕ, ◌+◌, ◌<◌, length, replicate, slice_index, Contains, IfOk};
ghost use Rattle.mp_program.specs.Reads.{roots};
ghost use Rattle.name_meanings.specs.Meaning.{AreMeanings};
ghost use Rattle.mp_order.specs.Tables.{Lifted};
ghost use Rattle.mp_order.specs.Demands.{OwnNames, WeighsDriven, AreTops, Gives, AreMarks, Asks, AreDemands};

use crate::table::{greatest, lift, lift_all, read, read_wide, wide_zeros, zeros};
use mp_base::List;
use mp_program::{Branch, ExprKind, FormKind, Program, laws};
use name_meanings::Meanings;
use std::alloc::{AllocError, Global};

/// For each expression the greatest weight of a driven definition whose name stands in it.
fn tops(
    alloc: Global,
    program: &Program,
    meanings: &Meanings,
    weights: &[u32],
) -> Result<List<u32>, AllocError>
    requires meant { AreMeanings program.now meanings.now }
    requires own { OwnNames program.now }
    requires driven { WeighsDriven program.now weights.now }
    ensures { IfOk result (AreTops program.now weights.now 0) }
{
    laws::sound(program);
    laws::mentions(program);
    let exprs = program.exprs.as_slice();
    let mut tops = zeros(alloc, exprs.len())?;
    let mut expr = exprs.len();
    while expr > 0 {
        expr -= 1;
        let top = match &exprs[expr].kind {
            ExprKind::Named(_) => read(weights, read(meanings.exprs.as_slice(), expr) as usize),
            ExprKind::Apply { args, .. } => greatest(tops.as_slice(), args.as_slice()),
            _ => 0,
        };
        tops.put(expr, top);
    }
    Ok(tops)
}

/// Marks what stands in the branches of a `cond`.
fn mark_branches(tops: &[u32], branches: &[Branch], mark: u64, marks: &mut List<u64>)
    ensures { Lifted (Gives tops.now (FormKind.Cond branches.now) mark) marks.old marks.new }
{
    let mut high = mark;
    for branch in branches {
        let guard = u64::from(read(tops, branch.guard as usize)) + 1;
        if high < guard {
            high = guard;
        }
        lift_all(marks, branch.body.as_slice(), high);
    }
}

/// Marks what stands in a form.
fn mark_inner(tops: &[u32], kind: &FormKind, mark: u64, marks: &mut List<u64>)
    ensures { Lifted (Gives tops.now kind.now mark) marks.old marks.new }
{
    match kind {
        FormKind::Cond(branches) => mark_branches(tops, branches.as_slice(), mark, marks),
        FormKind::Par(forms) => lift_all(marks, forms.as_slice(), mark),
        _ => {}
    }
}

/// Marks the top-level forms.
fn mark_roots(program: &Program, marks: &mut List<u64>)
    ensures { Lifted (λ f k. Contains (roots program.now) f × (k ≡ 1)) marks.old marks.new }
{
    lift_all(marks, program.always.as_slice(), 1);
    for process in program.processes.as_slice() {
        lift_all(marks, process.forms.as_slice(), 1);
    }
}

/// The marks of the forms. A form stands before those in it, so one pass finds them.
fn marks(alloc: Global, program: &Program, tops: &[u32]) -> Result<List<u64>, AllocError>
    ensures { IfOk result (AreMarks program.now tops.now) }
{
    laws::sound(program);
    let forms = program.forms.as_slice();
    let mut marks = wide_zeros(alloc, forms.len())?;
    mark_roots(program, &mut marks);
    for (n, form) in forms.iter().enumerate() {
        let mark = read_wide(&marks, n);
        if mark > 0 {
            mark_inner(tops, &form.kind, mark, &mut marks);
        }
    }
    Ok(marks)
}

/// For each definition the greatest worth of a `setq` of it.
fn ask(
    program: &Program,
    meanings: &Meanings,
    tops: &[u32],
    marks: &List<u64>,
    demands: &mut List<u64>,
)
    ensures { Lifted (Asks program.now meanings.now tops.now marks.now (length program.now.forms)) demands.old
        demands.new }
{
    for (n, form) in program.forms.as_slice().iter().enumerate() {
        if let FormKind::Set { value, .. } = &form.kind {
            let mark = read_wide(marks, n);
            if mark > 0 {
                let target = read(meanings.targets.as_slice(), n);
                lift(demands, target, mark - 1);
                lift(demands, target, u64::from(read(tops, *value as usize)));
            }
        }
    }
}

/// For each driven definition the greatest weight of one that it reads, 0 where it reads none.
pub fn demands(
    alloc: Global,
    program: &Program,
    meanings: &Meanings,
    weights: &[u32],
) -> Result<List<u64>, AllocError>
    requires meant { AreMeanings program.now meanings.now }
    requires own { OwnNames program.now }
    requires driven { WeighsDriven program.now weights.now }
    ensures { IfOk result (AreDemands program.now weights.now) }
{
    laws::sound(program);
    laws::mentions(program);
    laws::sets(program);
    laws::reads(program);
    let tops = tops(alloc, program, meanings, weights)?;
    let marks = marks(alloc, program, tops.as_slice())?;
    let mut demands = wide_zeros(alloc, program.defs.len())?;
    ask(program, meanings, tops.as_slice(), &marks, &mut demands);
    Ok(demands)
}
