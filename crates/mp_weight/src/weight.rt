//! The weight of a program.

ghost use Rattle.std.specs.Prelude.{◌≡◌, ◌<◌, ◌≤◌, ℕ, IfOk, MatchOption, length, min, slice_index};
ghost use Rattle.std.specs.List.{sum_by};
ghost use Rattle.mp_program.specs.declared.program.Form.{Form};
ghost use Rattle.mp_program.specs.Weight.{calls_in, form_weight, process_weight, weight};
ghost use Rattle.name_meanings.specs.Meaning.{AreMeanings};
ghost use Rattle.mp_rules.specs.Naming.{OwnNames};
ghost use Rattle.mp_weight.specs.Weighing.{process_weight_of};

use crate::calls::{calls, sum_at};
use crate::capped::{linear, plus, times};
use crate::defs::defs_weight;
use crate::exprs::exprs_weight;
use mp_program::{FormKind, Process, Program};
use name_meanings::Meanings;
use std::alloc::{AllocError, Global};

/// The weight of a form, without what stands in it.
fn form_weight(cap: u64, kind: &FormKind) -> u64
    ensures { result ≡ min cap (form_weight kind.now) }
{
    match kind {
        FormKind::Cond(branches) => linear(cap, 1, 4, branches.len() as u64),
        FormKind::Go(_) | FormKind::Call(_) | FormKind::Return => cap.min(2),
        FormKind::Set { .. } | FormKind::Par(_) => 0,
    }
}

/// The weight of all forms.
fn forms_weight(program: &Program, cap: u64) -> u64
    ensures { result ≡ min cap (sum_by (λ (f : Form). form_weight f.kind) program.now.forms) }
{
    let mut weight = 0;
    for form in program.forms.as_slice() {
        weight = plus(cap, weight, form_weight(cap, &form.kind));
    }
    weight
}

/// The weight of a process, where numbers say how many `call` there are in each form.
fn process_weight(cap: u64, calls: &[u64], process: &Process) -> u64
    ensures { result ≡ min cap (process_weight_of calls.now process.now) }
{
    let forms = process.forms.as_slice();
    let places = linear(cap, 10, 10, forms.len() as u64);
    let stack = times(cap, 10, process.depth);
    plus(cap, places, times(cap, stack, sum_at(cap, 0, calls, forms)))
}

/// The weight of all processes.
fn processes_weight(program: &Program, calls: &[u64], cap: u64) -> u64
    requires { (f : ℕ) → slice_index calls.now f ≡ min cap (calls_in program.now f) }
    ensures { result ≡ min cap (sum_by (process_weight program.now) program.now.processes) }
{
    let mut weight = 0;
    for process in program.processes.as_slice() {
        weight = plus(cap, weight, process_weight(cap, calls, process));
    }
    weight
}

/// The weight of a program, where it is within a limit. Time and memory are linear in the size of the program.
pub fn weight_within(
    alloc: Global,
    program: &Program,
    meanings: &Meanings,
    limit: u32,
) -> Result<Option<u32>, AllocError>
    requires meant { AreMeanings program.now meanings.now }
    requires own { OwnNames program.now }
    ensures { IfOk result (λ found. MatchOption found (limit < weight program.now) (λ w. (w ≡ weight program.now)
        × (w ≤ limit))) }
{
    let cap = u64::from(limit) + 1;
    let calls = calls(alloc, program, cap)?;
    let defs = defs_weight(alloc, program, meanings, cap)?;
    let exprs = exprs_weight(program, meanings, cap);
    let forms = forms_weight(program, cap);
    let processes = processes_weight(program, calls.as_slice(), cap);
    let weight = plus(cap, plus(cap, plus(cap, defs, exprs), forms), processes);
    if weight < cap {
        Ok(Some(weight as u32))
    } else {
        Ok(None)
    }
}
