//! Rules E30 to E32, of `go`, `call` and `return`.

ghost use Rattle.std.specs.Prelude.{◌≡◌, ◌⊎◌, ◌<◌, List, Option, Some, None, IfOk, All, length, map};
ghost use Rattle.std.specs.List.{flat_map};
ghost use Rattle.mp_program.specs.Weight.{inner};
ghost use Rattle.mp_program.specs.declared.program.Branch.{Branch as BranchValue};
ghost use Rattle.mp_rules.specs.Breaking.{IsEarliest};
ghost use Rattle.mp_rules.specs.Rules.{E30, E31, E32};
ghost use Rattle.mp_rules.specs.Standing.{sequences};
ghost use Rattle.mp_transfers.specs.Tables.{IsBehind, IsBehindInOne, AreFirsts, AreSeconds};
ghost use Rattle.mp_transfers.specs.declared.tables.Sought.TheVariants.{Transfer};

use crate::tables::{Sought, blank, firsts, least, least_inside};
use mp_base::{List, Place};
use mp_program::laws::sound;
use mp_program::{Branch, FormKind, Program};
use mp_rules::earlier_of;
use std::alloc::{AllocError, Global};

/// The earliest of what was found and the entries of some forms behind the first that has one.
fn behind_first(table: &List<Option<Place>>, forms: &[u32], found: Option<Place>) -> Option<Place>
    requires { All (λ f. f < length table.now) forms.now }
    ensures { IsEarliest (λ at. (found ≡ Some at) ⊎ IsBehind table.now forms.now at) result }
{
    let mut found = found;
    let mut begun = false;
    for form in forms {
        let first = *table.at(*form);
        if begun {
            found = earlier_of(found, first);
        } else {
            begun = first.is_some();
        }
    }
    found
}

fn behind_in_branches(
    table: &List<Option<Place>>,
    branches: &[Branch],
    found: Option<Place>,
) -> Option<Place>
    requires { All (λ f. f < length table.now) (flat_map (λ (b : BranchValue). b.body) branches.now) }
    ensures { IsEarliest (λ at. (found ≡ Some at)
        ⊎ IsBehindInOne table.now (map (λ (b : BranchValue). b.body) branches.now) at) result }
{
    let mut found = found;
    for branch in branches {
        found = behind_first(table, branch.body.as_slice(), found);
    }
    found
}

fn behind_inside(
    table: &List<Option<Place>>,
    kind: &FormKind,
    found: Option<Place>,
) -> Option<Place>
    requires { All (λ f. f < length table.now) (inner kind.now) }
    ensures { IsEarliest (λ at. (found ≡ Some at) ⊎ IsBehindInOne table.now (sequences kind.now) at) result }
{
    match kind {
        FormKind::Par(forms) => behind_first(table, forms.as_slice(), found),
        FormKind::Cond(branches) => behind_in_branches(table, branches.as_slice(), found),
        _ => found,
    }
}

/// For each form, the earliest place of a transfer in it that is the later of two.
fn seconds(
    alloc: Global,
    program: &Program,
    firsts: &List<Option<Place>>,
) -> Result<List<Option<Place>>, AllocError>
    requires { AreFirsts program.now Transfer firsts.now }
    ensures { IfOk result (AreSeconds program.now) }
{
    sound(program);
    let forms = program.forms.as_slice();
    let mut table = blank(alloc, forms.len())?;
    for f in (0..forms.len()).rev() {
        let kind = &forms[f].kind;
        let second = behind_inside(firsts, kind, least_inside(&table, kind));
        table.put(f, second);
    }
    Ok(table)
}

/// Rule E30: the earliest transfer in an `always`.
pub fn transfer_in_always(alloc: Global, program: &Program) -> Result<Option<Place>, AllocError>
    ensures { IfOk result (IsEarliest (E30 program.now)) }
{
    sound(program);
    let firsts = firsts(alloc, program, Sought::Transfer)?;
    Ok(least(&firsts, program.always.as_slice(), None))
}

/// Rule E31: the earliest `call` or `return` in a process without a stack.
pub fn missing_stack(alloc: Global, program: &Program) -> Result<Option<Place>, AllocError>
    ensures { IfOk result (IsEarliest (E31 program.now)) }
{
    sound(program);
    let firsts = firsts(alloc, program, Sought::StackUse)?;
    let mut found = None;
    for process in program.processes.as_slice() {
        let is_stackless = process.depth == 0;
        if is_stackless {
            found = least(&firsts, process.forms.as_slice(), found);
        }
    }
    Ok(found)
}

/// Rule E32: the earliest transfer in a process that is the later of two which may be active in one clock.
pub fn second_transfer(alloc: Global, program: &Program) -> Result<Option<Place>, AllocError>
    ensures { IfOk result (IsEarliest (E32 program.now)) }
{
    sound(program);
    let firsts = firsts(alloc, program, Sought::Transfer)?;
    let seconds = seconds(alloc, program, &firsts)?;
    let mut found = None;
    for process in program.processes.as_slice() {
        found = least(&seconds, process.forms.as_slice(), found);
    }
    Ok(found)
}
