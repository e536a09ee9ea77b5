//! The search for chains, one definition after another.

ghost use Rattle.std.specs.Prelude.{◌≡◌, ℕ, ◌+◌, ◌<◌, ◌≤◌, false, if◌then◌else◌, length, slice_index, IfOk, OnOk};
ghost use Rattle.mp_program.specs.declared.program.Def.{Def};
ghost use Rattle.name_meanings.specs.Meaning.{AreMeanings};
ghost use Rattle.mp_order.specs.Demands.{OwnNames, IsDriven};
ghost use Rattle.mp_order.specs.Chains.{Widened, blanks, AreReachers, Placed};
ghost use Rattle.mp_order.specs.Evaluation.{IsEvaluation};

use crate::demands::demands;
use crate::earliest::earliest;
use crate::evaluation::Evaluation;
use crate::table::{read, read_wide, zeros};
use mp_base::List;
use mp_program::{Program, laws};
use name_meanings::Meanings;
use std::alloc::{AllocError, Global};

/// Gives the weight 1 to each driven definition that has none and reads one that has; whether there is any.
fn widen(program: &Program, demands: &List<u64>, weights: &mut List<u32>) -> bool
    requires { length weights.old ≡ length program.now.defs }
    ensures wider { Widened program.now demands.now (length program.now.defs) weights.old weights.new }
    ensures same { result ≡ false → weights.new ≡ weights.old }
    ensures fewer { blanks weights.new + (if result then 1 else 0) ≤ blanks weights.old }
{
    let mut grown = false;
    for (d, def) in program.defs.as_slice().iter().enumerate() {
        if def.what.is_driven() && read_wide(demands, d) > 0 && read(weights.as_slice(), d) == 0 {
            weights.put(d, 1);
            grown = true;
        }
    }
    grown
}

/// Which driven definitions have a chain to one: those with a number above 0.
fn reachers(
    alloc: Global,
    program: &Program,
    meanings: &Meanings,
    target: u32,
) -> Result<List<u64>, AllocError>
    requires meant { AreMeanings program.now meanings.now }
    requires own { OwnNames program.now }
    requires driven { (x : Def) × IsDriven program.now target x }
    ensures { IfOk result (AreReachers program.now target) }
{
    let mut weights = zeros(alloc, program.defs.len())?;
    weights.set(target, 1);
    'spread: loop {
        let reach = demands(alloc, program, meanings, weights.as_slice())?;
        if !widen(program, &reach, &mut weights) {
            return Ok(reach);
        }
    }
}

/// The place of the first of some definitions that has a chain to another, or their number.
fn first_reacher(order: &[u32], reach: &List<u64>) -> usize
    ensures within { result ≤ length order.now }
    ensures before { (k : ℕ) → k < result → slice_index reach.now (slice_index order.now k) ≡ 0 }
    ensures found { result < length order.now → 0 < slice_index reach.now (slice_index order.now result) }
{
    for (k, d) in order.iter().enumerate() {
        if read_wide(reach, *d as usize) > 0 {
            return k;
        }
    }
    order.len()
}

/// Puts a definition before the first that has a chain to it.
fn place(order: &mut Vec<u32>, reach: &List<u64>, d: u32) -> Result<(), AllocError>
    ensures { OnOk result (Placed reach.now d order.old.items order.new.items) }
{
    let at = first_reacher(order.as_slice(), reach);
    order.insert(at, d)?;
    Ok(())
}

/// How the driven definitions can be evaluated, by a search for each of them: quadratic.
pub fn search(
    alloc: Global,
    program: &Program,
    meanings: &Meanings,
    count: u32,
) -> Result<Evaluation, AllocError>
    requires meant { AreMeanings program.now meanings.now }
    requires own { OwnNames program.now }
    requires counted { count ≡ length program.now.defs }
    ensures { IfOk result (IsEvaluation program.now) }
{
    laws::sound(program);
    laws::sets(program);
    laws::reads(program);
    let mut closed = zeros(alloc, program.defs.len())?;
    let mut order = Vec::new(alloc);
    for d in 0..count {
        if program.defs.at(d).what.is_driven() {
            let reach = reachers(alloc, program, meanings, d)?;
            if read_wide(&reach, d as usize) > 0 {
                closed.set(d, 1);
            } else {
                place(&mut order, &reach, d)?;
            }
        }
    }
    match earliest(program, meanings, closed.as_slice()) {
        Some(setting) => Ok(Evaluation::Closed(setting.place)),
        None => Ok(Evaluation::Order(List::from_vec(order))),
    }
}
