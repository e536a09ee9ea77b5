//! What expressions count, up to a cap: beside the arguments around them, and how often each of these occurs.

ghost use Rattle.std.specs.Prelude.{◌≡◌, ◌<◌, ◌≤◌, ℕ, List as Items, Some, None, MatchOption, ⊤, length, slice_index};
ghost use Rattle.std.specs.Prelude.{IfOk};
ghost use Rattle.mp_base.specs.declared.refusal.Place.{Place};
ghost use Rattle.mp_base.specs.declared.op.Op.{Op};
ghost use Rattle.mp_written.specs.declared.program.ExprKind.TheVariants.{Apply, Use};
ghost use Rattle.written_counts.specs.Counts.{one_of};
ghost use Rattle.mp_written.specs.Functions.{functions};
ghost use Rattle.written_meanings.specs.Meanings.{AreMeanings};
ghost use Rattle.written_counts.specs.Tallies.{AreCosts, AreTallies, IsNothing};
ghost use Rattle.written_counts.specs.Tallies.{Adds, IsCapped, IsKind, IsOpen, IsReady, count_at};

use crate::capped::{plus, times};
use mp_base::List;
use mp_written::laws::sound;
use mp_written::{ExprKind, Program};
use std::alloc::{AllocError, Global};
use written_meanings::Meanings;

/// What an expression of the expansion counts.
#[derive(Clone, Copy)]
pub(crate) enum Measure {
    /// What it weighs.
    Weight,
    /// One.
    Number,
}

/// What an expression counts, up to a cap.
#[derive(Drop)]
pub(crate) struct Tally {
    /// All but the arguments of the body around.
    pub(crate) own: u64,
    /// How often each of these occurs.
    pub(crate) times: List<u64>,
}

/// What is counted: the expressions of a program, each of which counts something beside its operands.
#[derive(Drop)]
pub(crate) struct Counting<'a> {
    pub(crate) measure: Measure,
    pub(crate) program: &'a Program,
    pub(crate) meanings: &'a Meanings,
    pub(crate) costs: &'a [u64],
    pub(crate) cap: u64,
}

/// The number at an index, 0 past the end.
fn read(numbers: &[u64], index: usize) -> u64
    ensures { result ≡ slice_index numbers.now index }
{
    if index < numbers.len() {
        numbers[index]
    } else {
        0
    }
}

/// Adds copies of what counts so much, or is an argument.
fn add(cap: u64, copies: u64, cost: u64, argument: Option<u32>, sum: &mut Tally)
    requires capped { IsCapped cap sum.old }
    requires room { MatchOption argument ⊤ (λ i. i < length sum.old.times) }
    ensures { Adds cap copies (one_of argument cost) sum.old sum.new }
{
    match argument {
        None => sum.own = plus(cap, sum.own, times(cap, copies, cost)),
        Some(argument) => {
            let more = plus(cap, *sum.times.at(argument), copies);
            sum.times.set(argument, more);
        }
    }
}

/// Adds copies of what an expression counts. A function has at least as many times as arguments; what a use drops isn't
/// looked at.
#[cycle(tallied)]
pub(crate) fn add_expr(
    counting: &Counting<'_>,
    tallies: &List<Tally>,
    owner: Option<u32>,
    expr: u32,
    copies: u64,
    sum: &mut Tally,
)
    requires ready { let c = counting.now in
        IsReady c.measure c.program.now c.meanings.now c.cap c.costs.now tallies.now owner expr }
    requires vacant { IsOpen counting.now.cap counting.now.program.now owner sum.old }
    ensures { let c = counting.now in Adds c.cap copies (count_at c.measure c.program.now owner expr) sum.old sum.new }
{
    match &counting.program.exprs.at(expr).kind {
        ExprKind::Apply { args, .. } => {
            add_operator(counting, tallies, owner, expr, args.as_slice(), copies, sum);
        }
        ExprKind::Use { args, .. } => {
            add_use(counting, tallies, owner, expr, args.as_slice(), copies, sum);
        }
        _ => {
            let argument = counting.meanings.exprs.at(expr).argument;
            add(
                counting.cap,
                copies,
                counting.costs[expr as usize],
                argument,
                sum,
            );
        }
    }
}

/// Adds copies of an operator and of its operands.
#[cycle(tallied)]
fn add_operator(
    counting: &Counting<'_>,
    tallies: &List<Tally>,
    owner: Option<u32>,
    expr: u32,
    args: &[u32],
    copies: u64,
    sum: &mut Tally,
)
    requires ready { let c = counting.now in
        IsReady c.measure c.program.now c.meanings.now c.cap c.costs.now tallies.now owner expr }
    requires vacant { IsOpen counting.now.cap counting.now.program.now owner sum.old }
    requires kind { (op : Op) × (index : ℕ) × IsKind counting.now.program.now expr (Apply op index args.now) }
    ensures { let c = counting.now in Adds c.cap copies (count_at c.measure c.program.now owner expr) sum.old sum.new }
{
    sound();
    add(
        counting.cap,
        copies,
        counting.costs[expr as usize],
        None,
        sum,
    );
    for arg in args {
        add_expr(counting, tallies, owner, *arg, copies, sum);
    }
}

/// Adds copies of what a use becomes.
#[cycle(tallied)]
fn add_use(
    counting: &Counting<'_>,
    tallies: &List<Tally>,
    owner: Option<u32>,
    expr: u32,
    args: &[u32],
    copies: u64,
    sum: &mut Tally,
)
    requires ready { let c = counting.now in
        IsReady c.measure c.program.now c.meanings.now c.cap c.costs.now tallies.now owner expr }
    requires vacant { IsOpen counting.now.cap counting.now.program.now owner sum.old }
    requires kind { (at : Place) × (name : Items ℕ) × IsKind counting.now.program.now expr (Use at name args.now) }
    ensures { let c = counting.now in Adds c.cap copies (count_at c.measure c.program.now owner expr) sum.old sum.new }
{
    sound();
    let Some(function) = counting.meanings.exprs.at(expr).function else {
        return;
    };
    let of = tallies.at(function);
    sum.own = plus(counting.cap, sum.own, times(counting.cap, copies, of.own));
    for (i, arg) in args.iter().enumerate() {
        let more = times(counting.cap, copies, read(of.times.as_slice(), i));
        if more > 0 {
            add_expr(counting, tallies, owner, *arg, more, sum);
        }
    }
}

/// Room to count an expression in a body with so many arguments around it.
pub(crate) fn nothing(alloc: Global, args: u32) -> Result<Tally, AllocError>
    ensures { IfOk result (IsNothing args) }
{
    Ok(Tally {
        own: 0,
        times: List::from_vec(Vec::from_elem(alloc, 0u64, args as usize)?),
    })
}

/// The tallies of the bodies of functions, in the order of their definitions, since one uses those before it.
pub(crate) fn function_tallies(
    alloc: Global,
    counting: &Counting<'_>,
) -> Result<List<Tally>, AllocError>
    requires meant { AreMeanings counting.now.program.now counting.now.meanings.now }
    requires costs { AreCosts counting.now.measure counting.now.program.now counting.now.costs.now }
    ensures { let c = counting.now in
        IfOk result (AreTallies c.measure c.program.now c.cap (length (functions c.program.now))) }
{
    let mut tallies = List::new(alloc);
    let mut function = 0u32;
    for body in counting.meanings.bodies.as_slice() {
        let mut sum = nothing(alloc, body.args)?;
        add_expr(counting, &tallies, Some(function), body.expr, 1, &mut sum);
        tallies.push(sum)?;
        function = function.checked_add(1).ok_or(AllocError)?;
    }
    Ok(tallies)
}
