//! Rule E37: uses with other than as many operands as there are arguments.

ghost use Rattle.std.specs.Prelude.{◌≡◌};
ghost use Rattle.mp_base.specs.declared.refusal.Place.{Place};
ghost use Rattle.mp_rules.specs.Breaking.{IsEarliest};
ghost use Rattle.written_rules.specs.Rules.{E20, E37};
ghost use Rattle.written_meanings.specs.Meanings.{AreMeanings};
ghost use Rattle.written_names.specs.Uneven.{uneven_at};

use mp_base::Place;
use mp_rules::earlier_of;
use mp_written::{Expr, ExprKind, Program};
use written_meanings::{Body, Meaning, Meanings};

// The place of a use that has not as many operands as its function has arguments.
fn uneven_at(bodies: &[Body], expr: &Expr, meaning: Meaning) -> Option<Place>
    ensures { result ≡ uneven_at bodies.now expr.now.place expr.now.kind meaning }
{
    let ExprKind::Use { args, .. } = &expr.kind else {
        return None;
    };
    let body = bodies.get(meaning.function? as usize)?;
    (args.len() as u64 != u64::from(body.args)).then_some(expr.place)
}

/// Rule E37: the earliest use that has not as many operands as its function has arguments.
pub fn uneven_use(program: &Program, meanings: &Meanings) -> Option<Place>
    requires meant { AreMeanings program.now meanings.now }
    requires apart { (at : Place) → ¬ E20 program.now at }
    ensures { IsEarliest (E37 program.now) result }
{
    let bodies = meanings.bodies.as_slice();
    let meant = meanings.exprs.as_slice();
    let mut found = None;
    for (e, expr) in program.exprs.as_slice().iter().enumerate() {
        found = earlier_of(found, uneven_at(bodies, expr, meant[e]));
    }
    found
}
