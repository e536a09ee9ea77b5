//! Programs in which nothing is ever written.

ghost use Rattle.std.specs.Prelude.{◌≡◌};
ghost use Rattle.std.specs.List.{list_any};
ghost use Rattle.mp_program.specs.declared.program.Form.{Form};
ghost use Rattle.process_plan.specs.Built.{is_set};
ghost use Rattle.process_sequencer.specs.Stillness.{is_still};

use mp_program::{Form, FormKind, Program};

fn is_set(kind: &FormKind) -> bool
    ensures { result ≡ is_set kind.now }
{
    matches!(kind, FormKind::Set { .. })
}

fn is_any_set(forms: &[Form]) -> bool
    ensures { result ≡ list_any (λ (y : Form). is_set y.kind) forms.now }
{
    forms.iter().any(|form| is_set(&form.kind))
}

/// Whether a program has no `setq` and no process.
pub(crate) fn is_still(program: &Program) -> bool
    ensures { result ≡ is_still program.now }
{
    !is_any_set(program.forms.as_slice()) && program.processes.len() == 0
}
