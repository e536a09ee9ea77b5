//! Laws of loops: a call of one does nothing, and tells the caller's proof what it ensures.

ghost use Rattle.board.specs.Laws.{BrokenOnce, CallsLoop, FirstOnce, InputsFit, LinksOnce};
ghost use Rattle.board.specs.Laws.{LinksVerdict, LoopsAgree, PlanOnce, PlanOrBroken, PlanVerdict, SwappedLoopsAgree};
ghost use Rattle.board.specs.Laws.{WholeOrBroken};

use transcript::Device;

/// What is shown in unsettled clocks changes neither what the inputs are given nor the parts.
pub fn loops_agree()
    ensures { LoopsAgree }
{}

/// The same with swaps.
pub fn swapped_loops_agree()
    ensures { SwappedLoopsAgree }
{}

/// What the inputs are given fits them.
pub fn inputs_fit()
    ensures { InputsFit }
{}

/// Calls of one board on one device that answer Ok, runs and swaps, are one loop.
pub fn calls_loop<D: Device>()
    ensures { CallsLoop D.steps }
{}

/// Words stand for one list of links, or break one rule first, at one word.
pub fn one_reading()
    ensures links { LinksOnce }
    ensures first { BrokenOnce }
    ensures whole { WholeOrBroken }
{}

/// Words have a verdict: they stand for links, or break a rule first, at a word.
pub fn links_verdict()
    ensures { LinksVerdict }
{}

/// Words stand for one plan, or break one rule first, at one word.
pub fn one_plan()
    ensures plan { PlanOnce }
    ensures first { FirstOnce }
    ensures whole { PlanOrBroken }
{}

/// Words have a verdict: they stand for a plan, or break a rule first, at a word.
pub fn plan_verdict()
    ensures { PlanVerdict }
{}
