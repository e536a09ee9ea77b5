//! Which forms have a call in them.

ghost use Rattle.std.specs.Prelude.{◌≡◌, ◌<◌, ℕ, false, IfOk, length, nat_lt, slice_index_or};
ghost use Rattle.std.specs.List.{list_any};
ghost use Rattle.mp_program.specs.declared.program.Branch as spec;
ghost use Rattle.mp_program.specs.Weight.{calls_in};
ghost use Rattle.process_layout.specs.Calling.{kind_calls};

use mp_base::NoMemory;
use mp_program::laws::{effects, sound, values};
use mp_program::{Branch, FormKind, Program};
use std::alloc::Global;

/// What is said of a form.
pub(crate) fn is_calling(calling: &[bool], form: u32) -> bool
    ensures { result ≡ slice_index_or calling.now form false }
{
    calling.get(form as usize).copied().unwrap_or(false)
}

fn is_any_calling(calling: &[bool], forms: &[u32]) -> bool
    ensures { result ≡ list_any (λ f. slice_index_or calling.now f false) forms.now }
{
    forms.iter().any(|form| is_calling(calling, *form))
}

fn is_branch_calling(calling: &[bool], branch: &Branch) -> bool
    ensures { result ≡ list_any (λ f. slice_index_or calling.now f false) branch.now.body }
{
    is_any_calling(calling, branch.body.as_slice())
}

fn is_some_branch_calling(calling: &[bool], branches: &[Branch]) -> bool
    ensures { result ≡ list_any (λ (b : spec.Branch). list_any (λ f. slice_index_or calling.now f false) b.body)
        branches.now }
{
    branches
        .iter()
        .any(|branch| is_branch_calling(calling, branch))
}

/// Whether a form of this kind has a call, where it is said which of those in it have one.
fn has_call(calling: &[bool], kind: &FormKind) -> bool
    ensures { result ≡ kind_calls (λ f. slice_index_or calling.now f false) kind.now }
{
    match kind {
        FormKind::Call(_) => true,
        FormKind::Par(forms) => is_any_calling(calling, forms.as_slice()),
        FormKind::Cond(branches) => is_some_branch_calling(calling, branches.as_slice()),
        _ => false,
    }
}

/// Whether each form has a call. A form stands before those in it, so one pass from the last tells.
pub(crate) fn calling_forms(alloc: Global, program: &Program) -> Result<Vec<bool>, NoMemory>
    ensures { IfOk result (λ calling. (f : ℕ) → f < length program.now.forms
        → slice_index_or calling.items f false ≡ nat_lt 0 (calls_in program.now f)) }
{
    sound(program);
    values(program);
    effects(program);
    let forms = program.forms.as_slice();
    let mut calling = Vec::from_elem(alloc, false, forms.len())?;
    for f in (0..forms.len()).rev() {
        calling[f] = has_call(&calling, &forms[f].kind);
    }
    Ok(calling)
}
