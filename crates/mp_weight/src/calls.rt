//! How many `call` there are in forms.

ghost use Rattle.std.specs.Prelude.{◌≡◌, ◌+◌, ◌≤◌, ℕ, IfOk, length, min, slice_index};
ghost use Rattle.std.specs.List.{sum_by};
ghost use Rattle.mp_program.specs.Weight.{calls_in, inner, is_call};

use crate::capped::plus;
use mp_base::List;
use mp_program::laws::sound;
use mp_program::{FormKind, Program};
use std::alloc::{AllocError, Global};

/// The number at an index, 0 past the end.
fn read(numbers: &[u64], index: u32) -> u64
    ensures { result ≡ slice_index numbers.now index }
{
    let index = index as usize;
    if index < numbers.len() {
        numbers[index]
    } else {
        0
    }
}

/// The sum of the numbers at some indices, from a start on.
pub fn sum_at(cap: u64, start: u64, numbers: &[u64], indices: &[u32]) -> u64
    requires { start ≤ cap }
    ensures { result ≡ min cap (start + sum_by (slice_index numbers.now) indices.now) }
{
    let mut sum = start;
    for index in indices {
        sum = plus(cap, sum, read(numbers, *index));
    }
    sum
}

/// How many `call` a form is or has in it, where numbers say how many those in it have.
fn calls_of(cap: u64, calls: &[u64], kind: &FormKind) -> u64
    ensures { result ≡ min cap (is_call kind.now + sum_by (slice_index calls.now) (inner kind.now)) }
{
    match kind {
        FormKind::Call(_) => cap.min(1),
        FormKind::Par(forms) => sum_at(cap, 0, calls, forms.as_slice()),
        FormKind::Cond(branches) => {
            let mut sum = 0;
            for branch in branches.as_slice() {
                sum = sum_at(cap, sum, calls, branch.body.as_slice());
            }
            sum
        }
        _ => 0,
    }
}

/// How many `call` there are in each form. A form stands before those in it, so one pass from the last finds them.
pub fn calls(alloc: Global, program: &Program, cap: u64) -> Result<List<u64>, AllocError>
    ensures { IfOk result (λ calls. (f : ℕ) → slice_index calls f ≡ min cap (calls_in program.now f)) }
{
    sound(program);
    let forms = program.forms.as_slice();
    let mut calls = List::from_vec(Vec::from_elem(alloc, 0u64, forms.len())?);
    for f in (0..forms.len()).rev() {
        let count = calls_of(cap, calls.as_slice(), &forms[f].kind);
        calls.put(f, count);
    }
    Ok(calls)
}
