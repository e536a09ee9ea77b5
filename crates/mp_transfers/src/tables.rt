//! Tables of the earliest places in each form, from the last form to the first: a form's entry follows from those of
//! the forms in it, which stand behind it.

ghost use Rattle.std.specs.Prelude.{◌≡◌, ◌⊎◌, ◌<◌, List, Option, Some, None, IfOk, All, length, replicate};
ghost use Rattle.std.specs.List.{flat_map};
ghost use Rattle.mp_program.specs.Weight.{inner};
ghost use Rattle.mp_program.specs.declared.program.Branch.{Branch as BranchValue};
ghost use Rattle.mp_rules.specs.Breaking.{IsEarliest, earlier_of};
ghost use Rattle.mp_transfers.specs.Tables.{is_sought, IsAmong, AreFirsts};

use mp_base::{List, Place};
use mp_program::laws::sound;
use mp_program::{Branch, FormKind, Program};
use mp_rules::{earlier, earlier_of};
use std::alloc::{AllocError, Global};

/// The kinds of forms that a table is of.
#[derive(Clone, Copy)]
pub enum Sought {
    /// `go`, `call` and `return`.
    Transfer,
    /// `call` and `return`.
    StackUse,
}

fn is_sought(sought: Sought, kind: &FormKind) -> bool
    ensures { result ≡ is_sought sought kind.now }
{
    match kind {
        FormKind::Call(_) | FormKind::Return => true,
        FormKind::Go(_) => match sought {
            Sought::Transfer => true,
            Sought::StackUse => false,
        },
        _ => false,
    }
}

/// An entry for each form, with nothing in it.
pub fn blank(alloc: Global, count: usize) -> Result<List<Option<Place>>, AllocError>
    ensures { IfOk result (λ table. table ≡ replicate count None) }
{
    let vec = Vec::from_elem(alloc, None, count)?;
    Ok(List::from_vec(vec))
}

/// The earliest of what was found and the entries of some forms.
pub fn least(table: &List<Option<Place>>, forms: &[u32], found: Option<Place>) -> Option<Place>
    requires { All (λ f. f < length table.now) forms.now }
    ensures { IsEarliest (λ at. (found ≡ Some at) ⊎ IsAmong table.now forms.now at) result }
{
    let mut found = found;
    for form in forms {
        found = earlier_of(found, *table.at(*form));
    }
    found
}

fn least_of_branches(table: &List<Option<Place>>, branches: &[Branch]) -> Option<Place>
    requires { All (λ f. f < length table.now) (flat_map (λ (b : BranchValue). b.body) branches.now) }
    ensures { IsEarliest (IsAmong table.now (flat_map (λ (b : BranchValue). b.body) branches.now)) result }
{
    let mut found = None;
    for branch in branches {
        found = least(table, branch.body.as_slice(), found);
    }
    found
}

/// The earliest of the entries of the forms directly in a form.
pub fn least_inside(table: &List<Option<Place>>, kind: &FormKind) -> Option<Place>
    requires { All (λ f. f < length table.now) (inner kind.now) }
    ensures { IsEarliest (IsAmong table.now (inner kind.now)) result }
{
    match kind {
        FormKind::Par(forms) => least(table, forms.as_slice(), None),
        FormKind::Cond(branches) => least_of_branches(table, branches.as_slice()),
        _ => None,
    }
}

/// For each form, the earliest place of a form of these kinds that it is or that stands in it.
pub fn firsts(
    alloc: Global,
    program: &Program,
    sought: Sought,
) -> Result<List<Option<Place>>, AllocError>
    ensures { IfOk result (AreFirsts program.now sought) }
{
    sound(program);
    let forms = program.forms.as_slice();
    let mut table = blank(alloc, forms.len())?;
    for f in (0..forms.len()).rev() {
        let form = &forms[f];
        let mut first = least_inside(&table, &form.kind);
        if is_sought(sought, &form.kind) {
            first = earlier(first, form.place);
        }
        table.put(f, first);
    }
    Ok(table)
}
