//! Pins: rules E25 and E26.

ghost use Rattle.std.specs.Prelude.{◌≡◌, ◌+◌, ◌<◌, length, IfOk};
ghost use Rattle.mp_rules.specs.Breaking.{IsEarliest};
ghost use Rattle.mp_rules.specs.Rules.{E25, E26};
ghost use Rattle.mp_limits.specs.Finding.{SeenPins, is_padded_port, pins_before, uneven_port};

use mp_base::Place;
use mp_program::{Def, Program, Way, What};
use mp_rules::earlier;
use std::alloc::{AllocError, Global};
use std::collections::BTreeSet;

// Adds the pins of the definition at an index to those seen, and gives the earliest so far that was seen before.
fn see_pins(
    defs: &[Def],
    index: usize,
    seen: &mut BTreeSet<u64>,
    found: Option<Place>,
) -> Result<Option<Place>, AllocError>
    requires inside { index < length defs.now }
    requires seen { SeenPins (pins_before defs.now index) seen.old found }
    ensures { IfOk result (SeenPins (pins_before defs.now (index + 1)) seen.new) }
{
    let mut found = found;
    for pin in defs[index].pins.as_slice() {
        if !seen.insert(pin.number)? {
            found = earlier(found, pin.place);
        }
    }
    Ok(found)
}

/// Rule E25: the earliest pin that stands earlier too.
pub fn repeated_pin(alloc: Global, program: &Program) -> Result<Option<Place>, AllocError>
    ensures { IfOk result (IsEarliest (E25 program.now)) }
{
    let defs = program.defs.as_slice();
    let mut seen = BTreeSet::new(alloc);
    let mut found = None;
    for index in 0..defs.len() {
        found = see_pins(defs, index, &mut seen, found)?;
    }
    Ok(found)
}

fn is_padded_port(what: What) -> bool
    ensures { result ≡ is_padded_port what }
{
    match what {
        What::Port(Way::Input) | What::Port(Way::Output) => true,
        _ => false,
    }
}

// The first pin of an input or output port that hasn't a pin for each bit of the word.
fn uneven_port(width: u8, def: &Def) -> Option<Place>
    ensures { result ≡ uneven_port width def.now }
{
    if is_padded_port(def.what) && def.pins.len() != usize::from(width) {
        def.pins.as_slice().first().map(|pin| pin.place)
    } else {
        None
    }
}

/// Rule E26: the earliest first pin of an input or output port that hasn't a pin for each bit of the word.
pub fn uneven_pins(program: &Program) -> Option<Place>
    ensures { IsEarliest (E26 program.now) result }
{
    let width = program.width;
    program
        .defs
        .as_slice()
        .iter()
        .filter_map(|def| uneven_port(width, def))
        .fold(None, |found, at| earlier(found, at))
}
