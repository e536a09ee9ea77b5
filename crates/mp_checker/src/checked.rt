//! Programs that keep the rules, with their pads and an order of evaluation.

ghost use Rattle.std.specs.Prelude.{◌≡◌, ◌≤◌, IfOk, IfErr};
ghost use Rattle.std.specs.List.{list_any};
ghost use Rattle.mp_program.specs.declared.program.Def.{Def};
ghost use Rattle.mp_program.specs.Names.{is_stored};
ghost use Rattle.mp_program.specs.Pads.{ArePadsOf};
ghost use Rattle.mp_program.specs.Reads.{IsOrder};
ghost use Rattle.mp_program.specs.Trace.{stores};
ghost use Rattle.mp_program.specs.Weight.{weight};
ghost use Rattle.mp_rules.specs.Breaking.{IsUnbroken, RefusesFirst, OfProgram};
ghost use Rattle.name_meanings.specs.Meaning.{AreMeanings};
ghost use Rattle.mp_checker.specs.Checking.{AreFindings};
ghost use Rattle.mp_checker.specs.Kept.{KeepsBelow};
ghost use Rattle.mp_base.specs.declared.limits.TheConstants.{WEIGHT_LIMIT};
ghost use Rattle.mp_base.specs.Refuses.{IsJudged};

use crate::groups::{
    judge_counts, judge_forms, judge_names, judge_numbers, judge_order, judge_presence,
    judge_weight,
};
use crate::pads::pads_of;
use mp_base::{List, Pads, Refusal};
use mp_names::{Meanings, NameTable, meanings_of};
use mp_program::{Def, Program};
use mp_rules::laws::own_names;
use std::alloc::Global;
use std::marker::Model;

/// A program that breaks no rule, with its pads, an order of evaluation and its weight.
#[derive(Drop)]
pub struct Checked {
    program: Program,
    pads: Pads,
    order: List<u32>,
    total_weight: u32,
}

impl Model for Checked {
    ghost use Rattle.mp_checker.specs.Checking.{AreFindings, CheckedProgram};

    ghost Value = { CheckedProgram };

    ghost view = { λ s. record { program = s.program; pads = s.pads; order = s.order } };

    ghost invariant = { λ s. AreFindings s.program s.pads s.order s.total_weight };
}

impl Checked {
    pub fn program(&self) -> &Program
        ensures { result.now ≡ self.now.program }
    {
        &self.program
    }

    /// The pads, in the order of their definitions.
    pub fn pads(&self) -> &Pads
        ensures same { result.now ≡ self.now.pads }
        ensures padded { ArePadsOf self.now.program result.now }
    {
        &self.pads
    }

    /// Whether something lasts from clock to clock: a register, a flag or a process.
    pub fn stores(&self) -> bool
        ensures { result ≡ stores self.now.program }
    {
        stores(&self.program)
    }

    /// The output and internal ports and signals by definition index, each once, each after all that it reads.
    pub fn order(&self) -> &List<u32>
        ensures same { result.now ≡ self.now.order }
        ensures ordered { IsOrder self.now.program result.now }
    {
        &self.order
    }

    /// A law: a call does nothing, and tells the caller's proof that the program breaks no rule.
    pub fn unbroken(&self)
        ensures { IsUnbroken self.now.program }
    {
        let _ = &self.program;
    }

    // What the program weighs, which breaks no rule.
    fn weighed(&self) -> u32
        ensures weight { result ≡ weight self.now.program }
        ensures unbroken { IsUnbroken self.now.program }
    {
        self.total_weight
    }
}

/// What a program weighs.
pub fn weight(checked: &Checked) -> u32
    ensures weight { result ≡ weight checked.now.program }
    ensures light { result ≤ WEIGHT_LIMIT }
{
    checked.weighed()
}

fn any_stored(defs: &[Def]) -> bool
    ensures { result ≡ list_any (λ (x : Def). is_stored x.what) defs.now }
{
    defs.iter().any(|def| def.what.is_stored())
}

fn stores(program: &Program) -> bool
    ensures { result ≡ stores program.now }
{
    any_stored(program.defs.as_slice()) || program.processes.len() > 0
}

/// What is found of a program that breaks no rule.
struct Findings {
    pads: Pads,
    order: List<u32>,
    weight: u32,
}

// Rules E20 to E32, and what the names mean.
fn judge_meanings(alloc: Global, program: &Program) -> Result<Meanings, Refusal>
    ensures ok { IfOk result (λ meanings. AreMeanings program.now meanings × KeepsBelow program.now 33) }
    ensures err { IfErr result (RefusesFirst program.now) }
{
    let names = NameTable::of(alloc, program)?;
    judge_names(program, &names)?;
    judge_numbers(alloc, program)?;
    judge_forms(alloc, program, &names)?;
    let meanings = meanings_of(alloc, program, &names)?;
    Ok(meanings)
}

fn findings_of(alloc: Global, program: &Program) -> Result<Findings, Refusal>
    ensures ok { IfOk result (λ found. AreFindings program.now found.pads found.order found.weight) }
    ensures err { IfErr result (RefusesFirst program.now) }
{
    let meanings = judge_meanings(alloc, program)?;
    own_names(program);
    let order = judge_order(alloc, program, &meanings)?;
    judge_presence(program)?;
    judge_counts(alloc, program)?;
    let weight = judge_weight(alloc, program, &meanings)?;
    let pads = pads_of(alloc, program)?;
    Ok(Findings {
        pads,
        order,
        weight,
    })
}

/// Checks a program against rules E20 to E45. The error is the first rule that it breaks, by number, at the earliest
/// place by offset, or want of memory.
pub fn check(alloc: Global, program: Program) -> Result<Checked, Refusal>
    ensures program { IfOk result (λ checked. checked.program ≡ program) }
    ensures judged { IsJudged (OfProgram program) result }
{
    let Findings {
        pads,
        order,
        weight,
    } = findings_of(alloc, &program)?;
    Ok(Checked {
        program,
        pads,
        order,
        total_weight: weight,
    })
}
