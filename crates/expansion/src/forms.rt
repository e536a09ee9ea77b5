//! Definitions but for functions, and forms whose guards and values have other indices.

ghost use Rattle.std.specs.Prelude.{◌≡◌, IfOk, map, slice_index};
ghost use Rattle.std.specs.List.{filter_map};
ghost use Rattle.mp_program.specs.declared.program.Form.{Form};
ghost use Rattle.mp_program.specs.declared.program.FormKind.{FormKind};
ghost use Rattle.mp_program.specs.declared.program.Branch.{Branch};
ghost use Rattle.mp_written.specs.Functions.{plain_what_of};
ghost use Rattle.mp_written.specs.Expansion.{moved, moved_branch, moved_form};
ghost use Rattle.expansion.specs.Moving.{plain_of};

use crate::needs::read;
use mp_base::List;
use mp_program as plain;
use mp_program::{Branch, Form, FormKind};
use mp_written as written;
use std::alloc::{AllocError, Global};

fn moved_branches(
    alloc: Global,
    branches: List<Branch>,
    starts: &[u32],
) -> Result<List<Branch>, AllocError>
    ensures { IfOk result (λ list. list ≡ map (moved_branch (slice_index starts.now)) branches) }
{
    let mut list = List::new(alloc);
    for branch in branches.into_vec() {
        let guard = read(starts, branch.guard);
        let body = branch.body;
        list.push(Branch { guard, body })?;
    }
    Ok(list)
}

fn moved(alloc: Global, kind: FormKind, starts: &[u32]) -> Result<FormKind, AllocError>
    ensures { IfOk result (λ k. k ≡ moved (slice_index starts.now) kind) }
{
    match kind {
        FormKind::Set { target, at, value } => {
            let value = read(starts, value);
            Ok(FormKind::Set { target, at, value })
        }
        FormKind::Cond(branches) => {
            let branches = moved_branches(alloc, branches, starts)?;
            Ok(FormKind::Cond(branches))
        }
        other => Ok(other),
    }
}

/// The forms, with the places where their guards and values begin.
pub(crate) fn moved_forms(
    alloc: Global,
    forms: List<Form>,
    starts: &[u32],
) -> Result<List<Form>, AllocError>
    ensures { IfOk result (λ list. list ≡ map (moved_form (slice_index starts.now)) forms) }
{
    let mut list = List::new(alloc);
    for form in forms.into_vec() {
        let place = form.place;
        let kind = moved(alloc, form.kind, starts)?;
        list.push(Form { place, kind })?;
    }
    Ok(list)
}

fn plain_what(what: written::What) -> Option<plain::What>
    ensures { result ≡ plain_what_of what }
{
    match what {
        written::What::Power => Some(plain::What::Power),
        written::What::Ground => Some(plain::What::Ground),
        written::What::Phia => Some(plain::What::Phia),
        written::What::Phib => Some(plain::What::Phib),
        written::What::Phic => Some(plain::What::Phic),
        written::What::Constant(value) => Some(plain::What::Constant(value)),
        written::What::Register => Some(plain::What::Register),
        written::What::Flag => Some(plain::What::Flag),
        written::What::Port(way) => Some(plain::What::Port(way)),
        written::What::Signal(way) => Some(plain::What::Signal(way)),
        written::What::Function { .. } => None,
    }
}

/// The definitions but for functions.
pub(crate) fn plain_defs(
    alloc: Global,
    defs: List<written::Def>,
) -> Result<List<plain::Def>, AllocError>
    ensures { IfOk result (λ list. list ≡ filter_map plain_of defs) }
{
    let mut list = List::new(alloc);
    for def in defs.into_vec() {
        let written::Def {
            place,
            name,
            what,
            pins,
        } = def;
        if let Some(what) = plain_what(what) {
            list.push(plain::Def {
                place,
                name,
                what,
                pins,
            })?;
        }
    }
    Ok(list)
}
