//! Which forms stand in a process.

ghost use Rattle.std.specs.Prelude.{◌≡◌, ◌⊎◌, ◌<◌, ◌≤◌, ℕ, List, All, length, slice_index};
ghost use Rattle.std.specs.List.{flat_map};
ghost use Rattle.mp_program.specs.Weight.{inner};
ghost use Rattle.mp_program.specs.declared.program.Branch.{Branch as BranchValue};
ghost use Rattle.mp_transfers.specs.Marks.{IsMarking, AreMarked, IsBelowAll};

use mp_base::List;
use mp_program::laws::sound;
use mp_program::{Branch, FormKind, Program};

/// Indices of forms, from one to before another.
#[derive(Clone, Copy)]
pub struct Span {
    pub from: usize,
    pub end: usize,
}

/// Marks some forms with a number. Answers an index behind them and not below `end`.
fn mark_forms(forms: &[u32], number: usize, end: usize, marks: &mut List<usize>) -> usize
    requires { All (λ f. f < length marks.old) forms.now }
    ensures { IsMarking forms.now number end marks.old marks.new result }
{
    let mut next = end;
    for form in forms {
        marks.set(*form, number);
        next = next.max(*form as usize + 1);
    }
    next
}

fn mark_branches(branches: &[Branch], number: usize, end: usize, marks: &mut List<usize>) -> usize
    requires { All (λ f. f < length marks.old) (flat_map (λ (b : BranchValue). b.body) branches.now) }
    ensures { IsMarking (flat_map (λ (b : BranchValue). b.body) branches.now) number end marks.old marks.new result }
{
    let mut next = end;
    for branch in branches {
        next = mark_forms(branch.body.as_slice(), number, next, marks);
    }
    next
}

fn mark_inside(kind: &FormKind, number: usize, end: usize, marks: &mut List<usize>) -> usize
    requires { All (λ f. f < length marks.old) (inner kind.now) }
    ensures { IsMarking (inner kind.now) number end marks.old marks.new result }
{
    match kind {
        FormKind::Par(forms) => mark_forms(forms.as_slice(), number, end, marks),
        FormKind::Cond(branches) => mark_branches(branches.as_slice(), number, end, marks),
        _ => end,
    }
}

/// An index that none of these is below.
fn least_index(forms: &[u32], count: usize) -> usize
    ensures { IsBelowAll forms.now result }
{
    let mut least = count;
    for form in forms {
        least = least.min(*form as usize);
    }
    least
}

/// Marks these forms and all that stand in them with a number that is greater than the marks so far.
pub fn mark(program: &Program, roots: &[u32], number: usize, marks: &mut List<usize>) -> Span
    requires size { length marks.old ≡ length program.now.forms }
    requires fresh { (f : ℕ) → slice_index marks.old f < number }
    requires inside { All (λ f. f < length program.now.forms) roots.now }
    ensures { AreMarked program.now roots.now number marks.new result }
{
    sound(program);
    let forms = program.forms.as_slice();
    let from = least_index(roots, forms.len());
    let mut end = mark_forms(roots, number, 0, marks);
    let mut f = from;
    while f < end {
        if marks.as_slice()[f] == number {
            end = mark_inside(&forms[f].kind, number, end, marks);
        }
        f += 1;
    }
    Span { from, end }
}
