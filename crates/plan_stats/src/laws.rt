//! A law of plans: a call of it does nothing, and tells the caller's proof what it ensures.

ghost use Rattle.plan_stats.specs.Stats.{PlansMakeChips};

use cif_form::laws::{walk_is_counted, walk_is_unique};
use slice_symbols::laws::symbols_exist;

/// The plan of a program's chip makes one: the chip has commands, and their text is a chip of the program.
pub fn plans_make_chips()
    ensures { PlansMakeChips }
{
    symbols_exist();
    walk_is_unique();
    walk_is_counted();
}
