//! Laws of sums: a call of one does nothing, and tells the caller's proof what it ensures.

ghost use Rattle.settled_sum.specs.Laws.{SumExists, SumOnce, SumsSettle};

use mp_checker::Checked;
use mp_fitting::{zero_is_a_state, zero_state_fits};
use trace_run::laws::clocks_fit;

/// Where all clocks but the first are settled, what is shown behind the first adds up to the sum of the settled clocks.
pub fn sums_settle(checked: &Checked)
    ensures { SumsSettle checked.now.program }
{
    let program = checked.program();
    checked.unbroken();
    zero_is_a_state(program);
    zero_state_fits(program);
    clocks_fit(checked);
}

/// Whatever is shown, it has a sum of its settled clocks, exactly one.
pub fn one_sum()
    ensures exist { SumExists }
    ensures once { SumOnce }
{}
