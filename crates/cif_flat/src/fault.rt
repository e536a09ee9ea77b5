//! Rules of the expansion, as what a command breaks.

ghost use Rattle.std.specs.Prelude.{◌≡◌};
ghost use Rattle.cif_form.specs.Walk.{draw_rule_number};
ghost use Rattle.cif_flat.specs.Refusing.{rule_of, refusal_of};

use mp_base::{Broken, Family, Refusal, Rule, Spot};

/// A rule of the expansion that a command breaks.
#[derive(Clone, Copy, Drop)]
pub(crate) enum Fault {
    F1,
    F2,
    F3,
    F4,
    F5,
    F6,
    F7,
    F8,
    F9,
    F10,
}

impl Fault {
    fn number(self) -> u16
        ensures { result ≡ draw_rule_number (rule_of self) }
    {
        match self {
            Fault::F1 => 1,
            Fault::F2 => 2,
            Fault::F3 => 3,
            Fault::F4 => 4,
            Fault::F5 => 5,
            Fault::F6 => 6,
            Fault::F7 => 7,
            Fault::F8 => 8,
            Fault::F9 => 9,
            Fault::F10 => 10,
        }
    }
}

/// The refusal of a file whose command at an offset breaks a rule.
pub(crate) fn broken(fault: Fault, offset: u64) -> Refusal
    ensures { result ≡ refusal_of fault offset }
{
    Refusal::Broken(Broken {
        rule: Rule {
            family: Family::F,
            number: fault.number(),
        },
        spot: Spot::Offset(offset),
    })
}
