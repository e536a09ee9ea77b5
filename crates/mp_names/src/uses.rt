//! Rules E21 and E27, and where names are misused.

ghost use Rattle.std.specs.Prelude.{◌≡◌, ◌⊎◌};
ghost use Rattle.mp_rules.specs.Rules.{E21, E27};
ghost use Rattle.mp_rules.specs.Breaking.{IsEarliest};
ghost use Rattle.mp_program.specs.declared.program.Expr.{Expr};
ghost use Rattle.mp_program.specs.declared.program.Form.{Form};
ghost use Rattle.name_meanings.specs.Table.{IsNameTable};

use mp_base::Place;
use mp_program::{Expr, ExprKind, Form, FormKind, Program};
use mp_rules::earlier_of;
use name_meanings::{NameTable, Named};

/// A misuse of a name: of one that nothing has, of one of a process, or of one that no form may set.
#[derive(Clone, Copy)]
pub enum Misuse {
    Undefined,
    OfProcess,
    OfUnset,
}

impl Misuse {
    ghost use Rattle.mp_names.specs.Finding.{earliest};
    ghost use Rattle.mp_names.specs.Misuse.{is_misuse, misuse_at, target_misuse, earliest_misuse};

    // Whether it is such a misuse to use a name of which this is known.
    fn is_of(self, named: Named) -> bool
        ensures { result ≡ is_misuse self named }
    {
        match self {
            Misuse::Undefined => !named.least.is_some(),
            Misuse::OfProcess => named.process,
            Misuse::OfUnset => named.unset,
        }
    }

    // The place of an expression that misuses a name.
    fn in_expr(self, names: &NameTable<'_>, expr: &Expr) -> Option<Place>
        ensures { result ≡ misuse_at names.now self expr.now.place expr.now.kind }
    {
        match &expr.kind {
            ExprKind::Named(name) => {
                if self.is_of(names.named(name.bytes())) {
                    Some(expr.place)
                } else {
                    None
                }
            }
            _ => None,
        }
    }

    // The place of a target that is misused.
    fn of_target(self, names: &NameTable<'_>, form: &Form) -> Option<Place>
        ensures { result ≡ target_misuse names.now self form.now.kind }
    {
        match &form.kind {
            FormKind::Set { target, at, .. } => {
                if self.is_of(names.named(target.bytes())) {
                    Some(*at)
                } else {
                    None
                }
            }
            _ => None,
        }
    }

    // The earliest of these expressions that misuses a name.
    fn in_exprs(self, names: &NameTable<'_>, exprs: &[Expr]) -> Option<Place>
        ensures { result ≡ earliest (λ (x : Expr). misuse_at names.now self x.place x.kind) exprs.now }
    {
        exprs.iter().fold(
            None,
            |found, expr| earlier_of(found, self.in_expr(names, expr)),
        )
    }

    // The earliest target in these forms that is misused.
    fn of_targets(self, names: &NameTable<'_>, forms: &[Form]) -> Option<Place>
        ensures { result ≡ earliest (λ (y : Form). target_misuse names.now self y.kind) forms.now }
    {
        forms.iter().fold(
            None,
            |found, form| earlier_of(found, self.of_target(names, form)),
        )
    }

    // The earliest place where a name is misused.
    pub(crate) fn earliest(self, names: &NameTable<'_>, program: &Program) -> Option<Place>
        ensures { result ≡ earliest_misuse names.now self program.now }
    {
        let in_exprs = self.in_exprs(names, program.exprs.as_slice());
        earlier_of(in_exprs, self.of_targets(names, program.forms.as_slice()))
    }
}

/// Rule E21: the earliest name in a `setq` or an expression that nothing has.
pub fn undefined_name(program: &Program, names: &NameTable<'_>) -> Option<Place>
    requires { IsNameTable program.now names.now }
    ensures { IsEarliest (E21 program.now) result }
{
    Misuse::Undefined.earliest(names, program)
}

/// Rule E27: the earliest `setq` of an input or a constant, at its target.
pub fn set_input(program: &Program, names: &NameTable<'_>) -> Option<Place>
    requires { IsNameTable program.now names.now }
    ensures { IsEarliest (E27 program.now) result }
{
    Misuse::OfUnset.of_targets(names, program.forms.as_slice())
}
