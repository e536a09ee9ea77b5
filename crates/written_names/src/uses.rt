//! Rules E21, E37 and E39: names and uses that mean nothing, or what they may not mean.

ghost use Rattle.std.specs.Prelude.{◌≡◌, ℕ};
ghost use Rattle.std.specs.Option.{option_copied};
ghost use Rattle.mp_base.specs.declared.refusal.Place.{Place};
ghost use Rattle.mp_program.specs.declared.program.Form.{Form};
ghost use Rattle.mp_rules.specs.Breaking.{IsEarliest};
ghost use Rattle.written_rules.specs.Rules.{E20, E21, E39};
ghost use Rattle.written_meanings.specs.Meanings.{AreMeanings};
ghost use Rattle.written_names.specs.Table.{NamesWritten, definition};

use mp_base::Place;
use mp_program::{Form, FormKind};
use mp_rules::earlier_of;
use mp_written::{Def, Expr, ExprKind, Program, What};
use name_meanings::NameTable;
use written_meanings::{Meaning, Meanings};

/// A misuse of a name: of one that nothing has, of one that is no value, or in a body of one that is neither an
/// argument nor that of a constant or function.
#[derive(Clone, Copy)]
pub enum Misuse {
    Undefined,
    NoValue,
    Outside,
}

// The first definition of a name.
pub(crate) fn definition<'a>(
    program: &'a Program,
    names: &NameTable<'_>,
    name: &[u8],
) -> Option<&'a Def>
    ensures { option_copied result ≡ definition program.now.defs names.now name.now }
{
    let first = names.named(name).first?;
    program.defs.as_slice().get(first as usize)
}

impl Misuse {
    ghost use Rattle.mp_names.specs.Finding.{earliest};
    ghost use Rattle.written_names.specs.Misuse.{is_misuse, misuse_at, target_misuse, is_reached, is_undefined};
    ghost use Rattle.written_names.specs.Misuse.{MisusesAt, NamesApart};

    // Whether it is such a misuse to use a name that is no argument.
    fn is_of(self, program: &Program, names: &NameTable<'_>, name: &[u8]) -> bool
        ensures { result ≡ is_misuse self program.now.defs names.now name.now }
    {
        let named = names.named(name);
        let def = definition(program, names, name);
        match self {
            Misuse::Undefined => named.least.is_none(),
            Misuse::NoValue => {
                named.process || def.is_some_and(|def| matches!(def.what, What::Function { .. }))
            }
            Misuse::Outside => {
                named.least.is_some()
                    && !def.is_some_and(|def| matches!(
                        def.what,
                        What::Constant(_) | What::Function { .. }
                    ))
            }
        }
    }

    // Whether an expression of this meaning may be such a misuse.
    fn is_reached(self, meaning: Meaning) -> bool
        ensures { result ≡ is_reached self meaning }
    {
        match self {
            Misuse::Outside => meaning.owner.is_some(),
            _ => true,
        }
    }

    fn is_undefined(self) -> bool
        ensures { result ≡ is_undefined self }
    {
        matches!(self, Misuse::Undefined)
    }

    // The place where an expression misuses a name.
    fn in_expr(
        self,
        program: &Program,
        names: &NameTable<'_>,
        expr: &Expr,
        meaning: Meaning,
    ) -> Option<Place>
        ensures { result ≡ misuse_at self program.now.defs names.now expr.now.place expr.now.kind meaning }
    {
        match &expr.kind {
            ExprKind::Named(name) => {
                let free = meaning.argument.is_none() && self.is_reached(meaning);
                (free && self.is_of(program, names, name.bytes())).then_some(expr.place)
            }
            ExprKind::Use { at, .. } => {
                (self.is_undefined() && meaning.function.is_none()).then_some(*at)
            }
            _ => None,
        }
    }

    // The place of a target that is misused.
    fn of_target(self, program: &Program, names: &NameTable<'_>, form: &Form) -> Option<Place>
        ensures { result ≡ target_misuse self program.now.defs names.now form.now.kind }
    {
        match &form.kind {
            FormKind::Set { target, at, .. } => {
                self.is_of(program, names, target.bytes()).then_some(*at)
            }
            _ => None,
        }
    }

    // The earliest place where an expression misuses a name.
    pub(crate) fn in_exprs(
        self,
        program: &Program,
        meanings: &Meanings,
        names: &NameTable<'_>,
    ) -> Option<Place>
        requires meant { AreMeanings program.now meanings.now }
        requires names { NamesWritten program.now names.now }
        requires apart { NamesApart self program.now }
        ensures { IsEarliest (λ at. (e : ℕ) × MisusesAt self program.now e at) result }
    {
        let meant = meanings.exprs.as_slice();
        let mut found = None;
        for (e, expr) in program.exprs.as_slice().iter().enumerate() {
            found = earlier_of(found, self.in_expr(program, names, expr, meant[e]));
        }
        found
    }

    // The earliest target that is misused.
    pub(crate) fn of_targets(self, program: &Program, names: &NameTable<'_>) -> Option<Place>
        ensures { result ≡ earliest (λ (y : Form). target_misuse self program.now.defs names.now y.kind)
            program.now.forms }
    {
        program.forms.as_slice().iter().fold(
            None,
            |found, form| earlier_of(found, self.of_target(program, names, form)),
        )
    }
}

/// Rule E21: the earliest name that nothing has and that is no argument there, or head of a use that names no function
/// that may be used there.
pub fn undefined_name(
    program: &Program,
    meanings: &Meanings,
    names: &NameTable<'_>,
) -> Option<Place>
    requires meant { AreMeanings program.now meanings.now }
    requires names { NamesWritten program.now names.now }
    ensures { IsEarliest (E21 program.now) result }
{
    let in_exprs = Misuse::Undefined.in_exprs(program, meanings, names);
    earlier_of(in_exprs, Misuse::Undefined.of_targets(program, names))
}

/// Rule E39: the earliest name in a body that is defined, and is neither an argument nor that of a constant or
/// function.
pub fn outside_name(program: &Program, meanings: &Meanings, names: &NameTable<'_>) -> Option<Place>
    requires meant { AreMeanings program.now meanings.now }
    requires names { NamesWritten program.now names.now }
    requires apart { (at : Place) → ¬ E20 program.now at }
    ensures { IsEarliest (E39 program.now) result }
{
    Misuse::Outside.in_exprs(program, meanings, names)
}
