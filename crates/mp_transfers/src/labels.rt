//! Rule E29, and the names of labels.

ghost use Rattle.std.specs.Prelude.{◌≡◌, ◌⊎◌, ◌↔◌, ◌<◌, ℕ, List, Option, Some, None, IfOk, length, true};
ghost use Rattle.mp_rules.specs.Breaking.{IsEarliest};
ghost use Rattle.mp_rules.specs.Rules.{E29};
ghost use Rattle.mp_transfers.specs.Labels.{has, IsRepeated, IsLabel};

use mp_base::Place;
use mp_program::{Label, Program};
use mp_rules::earlier;
use std::alloc::{AllocError, Global};
use std::collections::BTreeSet;

/// The names of some labels.
pub fn names_of<'a>(alloc: Global, labels: &'a [Label]) -> Result<BTreeSet<&'a [u8]>, AllocError>
    ensures { IfOk result (λ names. (x : List ℕ) → (has names x ≡ true) ↔ IsLabel labels.now x) }
{
    let mut names = BTreeSet::new(alloc);
    for label in labels {
        names.insert(label.name.bytes())?;
    }
    Ok(names)
}

/// The earliest of what was found and the labels whose names stand earlier among these.
fn repeated_in(
    alloc: Global,
    labels: &[Label],
    found: Option<Place>,
) -> Result<Option<Place>, AllocError>
    ensures { IfOk result (IsEarliest (λ at. (found ≡ Some at) ⊎ IsRepeated labels.now at)) }
{
    let mut found = found;
    let mut names = BTreeSet::new(alloc);
    for label in labels {
        if !names.insert(label.name.bytes())? {
            found = earlier(found, label.place);
        }
    }
    Ok(found)
}

/// Rule E29: the earliest label that stands earlier in its process.
pub fn repeated_label(alloc: Global, program: &Program) -> Result<Option<Place>, AllocError>
    ensures { IfOk result (IsEarliest (E29 program.now)) }
{
    let mut found = None;
    for process in program.processes.as_slice() {
        found = repeated_in(alloc, process.labels.as_slice(), found)?;
    }
    Ok(found)
}
