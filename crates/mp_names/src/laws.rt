//! Laws of names: a call of one does nothing, and tells the caller's proof what it ensures.

ghost use Rattle.std.specs.Prelude.{◌≡◌, ◌<◌};
ghost use Rattle.mp_base.specs.declared.refusal.Place.{Place};
ghost use Rattle.mp_rules.specs.Rules.{E21, E22};
ghost use Rattle.mp_names.specs.Defined.{NamesDefinitions};
ghost use Rattle.name_meanings.specs.Meaning.{AreMeanings};

use mp_program::Program;
use name_meanings::Meanings;

/// Where rules E21 and E22 aren't broken, each name that is used is that of a definition.
pub fn meanings_are_definitions(program: &Program, meanings: &Meanings)
    requires meanings { AreMeanings program.now meanings.now }
    requires defined { (at : Place) → ¬ E21 program.now at }
    requires sorts { (at : Place) → ¬ E22 program.now at }
    ensures { NamesDefinitions program.now meanings.now }
{}
