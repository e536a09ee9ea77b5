//! Limits of a program: rules E41 to E43 and E45.

ghost use Rattle.std.specs.Prelude.{◌≡◌};
ghost use Rattle.mp_rules.specs.Breaking.{IsEarliest};
ghost use Rattle.mp_rules.specs.Rules.{E41, E42, E43, E45};
ghost use Rattle.mp_limits.specs.Finding.{far_form};

use mp_base::Place;
use mp_program::{Form, Process, Program};
use mp_rules::{DEPTH_LIMIT, EXPR_LIMIT, FORM_LIMIT, PROCESS_LIMIT, earlier};

/// Rule E41: the first process too many.
pub fn far_process(program: &Program) -> Option<Place>
    ensures { IsEarliest (E41 program.now) result }
{
    let process = program.processes.as_slice().get(PROCESS_LIMIT)?;
    Some(process.place)
}

// The first form too many of a process.
fn far_form(forms: &[Form], process: &Process) -> Option<Place>
    ensures { result ≡ far_form forms.now process.now }
{
    let index = *process.forms.as_slice().get(FORM_LIMIT)?;
    let form = forms.get(index as usize)?;
    Some(form.place)
}

/// Rule E42: the earliest of the first forms too many of processes.
pub fn long_process(program: &Program) -> Option<Place>
    ensures { IsEarliest (E42 program.now) result }
{
    let forms = program.forms.as_slice();
    program
        .processes
        .as_slice()
        .iter()
        .filter_map(|process| far_form(forms, process))
        .fold(None, |found, at| earlier(found, at))
}

/// Rule E43: the earliest process that is too deep.
pub fn deep_process(program: &Program) -> Option<Place>
    ensures { IsEarliest (E43 program.now) result }
{
    program
        .processes
        .as_slice()
        .iter()
        .filter_map(|process| (DEPTH_LIMIT < process.depth).then_some(process.depth_at))
        .fold(None, |found, at| earlier(found, at))
}

/// Rule E45: the place of a program of too many expressions.
pub fn many_exprs(program: &Program) -> Option<Place>
    ensures { IsEarliest (E45 program.now) result }
{
    (EXPR_LIMIT < program.exprs.len()).then_some(program.place)
}
