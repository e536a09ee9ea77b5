//! The weight of definitions.

ghost use Rattle.std.specs.Prelude.{◌≡◌, ◌+◌, ◌<◌, ◌^◌, ℕ, IfOk, OnOk, length, min, slice_index};
ghost use Rattle.std.specs.List.{sum_by};
ghost use Rattle.mp_program.specs.declared.program.Def.{Def};
ghost use Rattle.mp_program.specs.Weight.{def_weight, sets_of};
ghost use Rattle.name_meanings.specs.Meaning.{AreMeanings};
ghost use Rattle.mp_rules.specs.Naming.{OwnNames};
ghost use Rattle.mp_weight.specs.Weighing.{AreSetCounts, counted};

use crate::capped::{linear, plus};
use mp_base::List;
use mp_program::{FormKind, Program, Way, What};
use name_meanings::Meanings;
use std::alloc::{AllocError, Global};

fn count_set(kind: &FormKind, target: u32, counts: &mut List<u64>)
    requires { slice_index counts.old target + 1 < 2 ^ 64 }
    ensures { counts.new ≡ counted kind.now target counts.old }
{
    if let FormKind::Set { .. } = kind {
        let target = target as usize;
        if target < counts.len() {
            let count = counts.as_slice()[target];
            counts.put(target, count + 1);
        }
    }
}

/// For each definition how many `setq` of it there are.
fn set_counts(
    alloc: Global,
    program: &Program,
    meanings: &Meanings,
) -> Result<List<u64>, AllocError>
    requires meant { AreMeanings program.now meanings.now }
    requires own { OwnNames program.now }
    ensures { IfOk result (AreSetCounts program.now (length program.now.forms)) }
{
    let mut counts = List::from_vec(Vec::from_elem(alloc, 0u64, program.defs.len())?);
    let targets = meanings.targets.as_slice();
    for (f, form) in program.forms.as_slice().iter().enumerate() {
        count_set(&form.kind, targets[f], &mut counts);
    }
    Ok(counts)
}

/// The weight of a definition of which there are some `setq`.
fn def_weight(cap: u64, what: What, sets: u64) -> u64
    ensures { result ≡ min cap (def_weight what sets) }
{
    match what {
        What::Port(Way::Input) | What::Signal(Way::Input) => cap.min(2),
        What::Port(Way::Output) | What::Port(Way::Internal) => linear(cap, 4, 4, sets),
        What::Signal(Way::Output) | What::Signal(Way::Internal) => linear(cap, 3, 3, sets),
        What::Register => linear(cap, 10, 4, sets),
        What::Flag => linear(cap, 9, 3, sets),
        _ => 0,
    }
}

/// The weight of all definitions.
pub fn defs_weight(
    alloc: Global,
    program: &Program,
    meanings: &Meanings,
    cap: u64,
) -> Result<u64, AllocError>
    requires meant { AreMeanings program.now meanings.now }
    requires own { OwnNames program.now }
    ensures { IfOk result (λ weight. weight
        ≡ min cap (sum_by (λ (d : Def). def_weight d.what (sets_of program.now d.name)) program.now.defs)) }
{
    let counts = set_counts(alloc, program, meanings)?;
    let counts = counts.as_slice();
    let mut weight = 0;
    for (d, def) in program.defs.as_slice().iter().enumerate() {
        weight = plus(cap, weight, def_weight(cap, def.what, counts[d]));
    }
    Ok(weight)
}
