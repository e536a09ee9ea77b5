//! Rules E44 and E45: how much the expansion weighs, and how many expressions it has.

ghost use Rattle.std.specs.Prelude.{◌≡◌, ◌+◌, ◌<◌, ◌≤◌, true, None, IfOk, MatchOption, length, min, if◌then◌else◌};
ghost use Rattle.std.specs.List.{sum_by};
ghost use Rattle.mp_rules.specs.Breaking.{IsEarliest};
ghost use Rattle.mp_rules.specs.Naming.{OwnNames};
ghost use Rattle.mp_written.specs.Expansion.{tops};
ghost use Rattle.mp_written.specs.Weight.{weight};
ghost use Rattle.written_rules.specs.Rules.{E45};
ghost use Rattle.written_frame.specs.Frame.{IsFrame};
ghost use Rattle.written_meanings.specs.Meanings.{AreMeanings};
ghost use Rattle.name_meanings.specs.Meaning as named;
ghost use Rattle.written_counts.specs.Counts.{counted};
ghost use Rattle.written_counts.specs.Tallies.{AreCosts, IsOpen, IsReady, cost};

use crate::costs::weights;
use crate::frames::weight_beside;
use crate::tally::{Counting, Measure, Tally, add_expr, function_tallies, nothing};
use expansion::tops;
use mp_base::{List, Place};
use mp_program as plain;
use mp_rules::EXPR_LIMIT;
use mp_written::Program;
use name_meanings::Meanings as Names;
use std::alloc::{AllocError, Global};
use written_meanings::Meanings;

// Adds what an expression counts that is a guard or value.
fn add_top(counting: &Counting<'_>, tallies: &List<Tally>, expr: u32, is_top: bool, sum: &mut Tally)
    requires ready { is_top ≡ true → (let c = counting.now in
        IsReady c.measure c.program.now c.meanings.now c.cap c.costs.now tallies.now None expr) }
    requires vacant { IsOpen counting.now.cap counting.now.program.now None sum.old }
    ensures own { let c = counting.now in sum.new.own ≡ min c.cap (sum.old.own
        + (if is_top then counted (cost c.measure c.program.now) c.program.now expr else 0)) }
    ensures vacant { IsOpen counting.now.cap counting.now.program.now None sum.new }
{
    if is_top {
        add_expr(counting, tallies, None, expr, 1, sum);
    }
}

// What all guards and values count, up to the cap.
fn total(alloc: Global, counting: &Counting<'_>) -> Result<u64, AllocError>
    requires meant { AreMeanings counting.now.program.now counting.now.meanings.now }
    requires costs { AreCosts counting.now.measure counting.now.program.now counting.now.costs.now }
    ensures { let c = counting.now in IfOk result (λ n. n
        ≡ min c.cap (sum_by (counted (cost c.measure c.program.now) c.program.now) (tops c.program.now))) }
{
    let tallies = function_tallies(alloc, counting)?;
    let flags = tops(alloc, counting.program)?;
    let mut sum = nothing(alloc, 0)?;
    for (e, is_top) in flags.as_slice().iter().enumerate() {
        let Ok(expr) = u32::try_from(e) else {
            return Err(AllocError);
        };
        add_top(counting, &tallies, expr, *is_top, &mut sum);
    }
    Ok(sum.own)
}

/// The weight of a program's expansion, where it is within a limit, by its frame and what the names of this mean. Time
/// and memory are linear in the size of the program, however large the expansion is. Errors: want of memory.
pub fn weight_within(
    alloc: Global,
    program: &Program,
    meanings: &Meanings,
    frame: &plain::Program,
    names: &Names,
    limit: u32,
) -> Result<Option<u32>, AllocError>
    requires meant { AreMeanings program.now meanings.now }
    requires frame { IsFrame program.now frame.now }
    requires named { named.AreMeanings frame.now names.now }
    requires own { OwnNames frame.now }
    ensures { IfOk result (λ found. MatchOption found (limit < weight program.now) (λ w. (w ≡ weight program.now)
        × (w ≤ limit))) }
{
    let Some(beside) = weight_beside(alloc, frame, names, limit)? else {
        return Ok(None);
    };
    let costs = weights(alloc, program, names)?;
    let counting = Counting {
        measure: Measure::Weight,
        program,
        meanings,
        costs: costs.as_slice(),
        cap: u64::from(limit) + 1,
    };
    let weight = u64::from(beside) + total(alloc, &counting)?;
    if weight <= u64::from(limit) {
        Ok(Some(weight as u32))
    } else {
        Ok(None)
    }
}

/// Rule E45: the place of a program whose expansion has too many expressions. Errors: want of memory.
pub fn many_exprs(
    alloc: Global,
    program: &Program,
    meanings: &Meanings,
) -> Result<Option<Place>, AllocError>
    requires { AreMeanings program.now meanings.now }
    ensures { IfOk result (IsEarliest (E45 program.now)) }
{
    let costs = List::from_vec(Vec::from_elem(alloc, 1u64, program.exprs.len())?);
    let limit = EXPR_LIMIT as u64;
    let counting = Counting {
        measure: Measure::Number,
        program,
        meanings,
        costs: costs.as_slice(),
        cap: limit + 1,
    };
    Ok((limit < total(alloc, &counting)?).then_some(program.place))
}
