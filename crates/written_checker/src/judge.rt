//! Rules by their numbers: the first that a program breaks.

ghost use Rattle.std.specs.Prelude.{◌≡◌, ◌+◌, OnOk, IfErr};
ghost use Rattle.mp_rules.specs.Breaking.{IsEarliest};
ghost use Rattle.written_rules.specs.Breaking.{Breaks, RefusesFirst};
ghost use Rattle.written_checker.specs.Kept.{KeepsBelow};

use mp_base::{Broken, Family, Place, Refusal, Rule, Spot};
use mp_written::Program;

/// A refusal by the rule of a number, at a place.
pub fn refusal(number: u16, at: Place) -> Refusal
    ensures { result ≡ Refusal.Broken
        (record { rule = record { family = Family.E; number = number }; spot = Spot.At at }) }
{
    Refusal::Broken(Broken {
        rule: Rule {
            family: Family::E,
            number,
        },
        spot: Spot::At(at),
    })
}

/// Refuses a program that keeps all rules below that of a number, where a place was found at which it breaks this one.
pub fn judge(program: &Program, number: u16, found: Option<Place>) -> Result<(), Refusal>
    requires below { KeepsBelow program.now number }
    requires earliest { IsEarliest (Breaks program.now number) found }
    ensures ok { OnOk result (KeepsBelow program.now (number + 1)) }
    ensures err { IfErr result (RefusesFirst program.now) }
{
    match found {
        None => Ok(()),
        Some(at) => Err(refusal(number, at)),
    }
}
