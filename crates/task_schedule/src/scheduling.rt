//! An order in which expressions and driven cells can be made.

ghost use Rattle.std.specs.Prelude.{◌≡◌, ◌<◌, ◌≤◌, ◌+◌, ◌*◌, ◌^◌, ℕ, suc, max, List as Lists, All, Contains, IfOk};
ghost use Rattle.std.specs.Prelude.{length, slice_index};
ghost use Rattle.std.specs.List.Sorted.{IsNonDecreasingBy};
ghost use Rattle.mp_base.specs.declared.op.Op as Op;
ghost use Rattle.mp_base.specs.Entries.{IsAt};
ghost use Rattle.rtl_form.specs.Sound.{IsSound};
ghost use Rattle.task_schedule.specs.Schedule.{IsSchedule};
ghost use Rattle.task_schedule.specs.Turns.{AreCellTurns, AreEntries, AreExprTurns, ArePermuted, IsExprTurn, IsLatest};

use crate::task::Task;
use mp_base::{List, NoMemory};
use rtl_form::{Rtl, RtlExpr};
use std::alloc::Global;

/// A task, with the moment at which it can be done.
#[derive(Clone, Copy)]
pub struct Entry {
    pub moment: u64,
    pub task: Task,
}

// The places of driven cells in the order, from 1, and 0 for other cells.
fn cell_turns(alloc: Global, rtl: &Rtl) -> Result<List<u32>, NoMemory>
    requires sound { IsSound rtl.now }
    requires few { length rtl.now.order < 2 ^ 31 }
    ensures { IfOk result (AreCellTurns rtl.now (length rtl.now.order)) }
{
    let mut turns = List::from_vec(vec![in alloc; 0u32; rtl.cells.len()]?);
    for place in 0..rtl.order.len() as u32 {
        let cell = *rtl.order.at(place);
        turns.set(cell, place + 1);
    }
    Ok(turns)
}

// The greater of two turns.
fn later(a: u32, b: u32) -> u32
    ensures { result ≡ max a b }
{
    if a < b { b } else { a }
}

// The greatest turn among the arguments, or 0.
fn latest(turns: &[u32], args: &[u32]) -> u32
    requires { All (λ a. a < length turns.now) args.now }
    ensures { IsLatest turns.now args.now result }
{
    let mut last = 0;
    for arg in args {
        last = later(last, turns[*arg as usize]);
    }
    last
}

// The turn of an expression.
fn expr_turn(cells: &[u32], turns: &[u32], expr: &RtlExpr) -> u32
    requires cell { (c : ℕ) → expr.now ≡ RtlExpr.Cell c → c < length cells.now }
    requires args { (op : Op.Op) (k : ℕ) (args : Lists ℕ) → expr.now ≡ RtlExpr.Apply op k args
        → All (λ a. a < length turns.now) args }
    ensures { IsExprTurn cells.now turns.now expr.now result }
{
    match expr {
        RtlExpr::Cell(cell) => cells[*cell as usize],
        RtlExpr::Apply { args, .. } => latest(turns, args.as_slice()),
        _ => 0,
    }
}

// The turns of all expressions.
fn expr_turns(alloc: Global, rtl: &Rtl, cells: &[u32]) -> Result<List<u32>, NoMemory>
    requires sound { IsSound rtl.now }
    requires cells { length cells.now ≡ length rtl.now.cells }
    ensures { IfOk result (AreExprTurns rtl.now cells.now (length rtl.now.exprs)) }
{
    let mut turns = List::new(alloc);
    for expr in rtl.exprs.as_slice() {
        turns.push(expr_turn(cells, turns.as_slice(), expr))?;
    }
    Ok(turns)
}

// The moment of a task: those of one turn follow by their indices, of which there are so many.
fn moment_of(turn: u32, count: u32, index: u32) -> u64
    requires turn { turn ≤ 2 ^ 31 }
    requires count { count < 2 ^ 31 }
    requires index { index ≤ count }
    ensures { result ≡ turn * suc count + index }
{
    turn as u64 * (count as u64 + 1) + index as u64
}

// The expressions with their moments.
fn expr_entries(alloc: Global, rtl: &Rtl, turns: &[u32]) -> Result<List<Entry>, NoMemory>
    requires few_exprs { length rtl.now.exprs < 2 ^ 31 }
    requires few_cells { length rtl.now.order < 2 ^ 31 }
    requires count { length turns.now ≡ length rtl.now.exprs }
    requires small { All (λ t. t ≤ length rtl.now.order) turns.now }
    ensures { IfOk result (AreEntries rtl.now turns.now (length rtl.now.exprs) 0) }
{
    let count = rtl.exprs.len() as u32;
    let mut entries = List::new(alloc);
    for index in 0..count {
        entries.push(Entry {
            moment: moment_of(turns[index as usize], count, index),
            task: Task::Expr(index),
        })?;
    }
    Ok(entries)
}

// The same with the driven cells behind them.
fn all_entries(alloc: Global, rtl: &Rtl, turns: &[u32]) -> Result<List<Entry>, NoMemory>
    requires few_exprs { length rtl.now.exprs < 2 ^ 31 }
    requires few_cells { length rtl.now.order < 2 ^ 31 }
    requires count { length turns.now ≡ length rtl.now.exprs }
    requires small { All (λ t. t ≤ length rtl.now.order) turns.now }
    ensures { IfOk result (AreEntries rtl.now turns.now (length rtl.now.exprs) (length rtl.now.order)) }
{
    let count = rtl.exprs.len() as u32;
    let mut entries = expr_entries(alloc, rtl, turns)?;
    for place in 0..rtl.order.len() as u32 {
        entries.push(Entry {
            moment: moment_of(place, count, count),
            task: Task::Cell(*rtl.order.at(place)),
        })?;
    }
    Ok(entries)
}

// The same in the order of their moments.
fn sorted_entries(alloc: Global, rtl: &Rtl, turns: &[u32]) -> Result<Vec<Entry>, NoMemory>
    requires few_exprs { length rtl.now.exprs < 2 ^ 31 }
    requires few_cells { length rtl.now.order < 2 ^ 31 }
    requires count { length turns.now ≡ length rtl.now.exprs }
    requires small { All (λ t. t ≤ length rtl.now.order) turns.now }
    ensures permuted { IfOk result (λ ys. ArePermuted rtl.now turns.now ys.items) }
    ensures rising { IfOk result (λ ys. IsNonDecreasingBy (λ e. e.moment) ys.items) }
{
    let mut entries = all_entries(alloc, rtl, turns)?.into_vec();
    entries.sort_unstable_by_key(|entry| entry.moment);
    Ok(entries)
}

/// All expressions and driven cells, each after what it reads.
///
/// # Errors
///
/// `NoMemory`, also where there are 2^31 expressions or more.
pub fn schedule(alloc: Global, rtl: &Rtl) -> Result<List<Task>, NoMemory>
    requires { IsSound rtl.now }
    ensures { IfOk result (λ tasks. IsSchedule rtl.now tasks) }
{
    let limit = 1 << 31;
    if rtl.exprs.len() >= limit || rtl.order.len() >= limit {
        return Err(NoMemory);
    }
    let cells = cell_turns(alloc, rtl)?;
    let turns = expr_turns(alloc, rtl, cells.as_slice())?;
    let entries = sorted_entries(alloc, rtl, turns.as_slice())?;
    let mut tasks = List::new(alloc);
    for entry in &entries {
        tasks.push(entry.task)?;
    }
    Ok(tasks)
}
