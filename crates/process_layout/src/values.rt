//! The cells of definitions.

ghost use Rattle.std.specs.Prelude.{◌≡◌, ◌≤◌, ◌++◌, if◌then◌else◌, IfOk, length, map};
ghost use Rattle.process_layout.specs.Holding.{HoldCells};
ghost use Rattle.process_layout.specs.Laying.{
  cell_or_bit,
  numbered_cell,
  numbered_kind,
  own_role,
  value_roles,
};

use crate::laid::Laid;
use mp_base::NoMemory;
use mp_program::{Def, Way, What};
use process_plan::Role;
use rtl_form::{Cell, CellKind};
use std::alloc::Global;

/// Where the cell of a port or signal has its value from.
fn kind_of(way: Way, inputs: u32, outputs: u32) -> CellKind
    ensures { result ≡ numbered_kind inputs outputs way }
{
    match way {
        Way::Input => CellKind::Input(inputs),
        Way::Output => CellKind::Output(outputs),
        Way::Internal => CellKind::Inner,
    }
}

/// The cell of a definition before which there are so many inputs and outputs.
fn cell_of(what: What, inputs: u32, outputs: u32) -> Option<Cell>
    ensures { result ≡ numbered_cell inputs outputs what }
{
    let (word, kind) = match what {
        What::Register => (true, CellKind::Stored),
        What::Flag => (false, CellKind::Stored),
        What::Port(way) => (true, kind_of(way, inputs, outputs)),
        What::Signal(way) => (false, kind_of(way, inputs, outputs)),
        _ => return None,
    };
    Some(Cell { word, kind })
}

/// 1 where something holds, and else 0.
fn one_if(holds: bool) -> u32
    ensures one { result ≡ (if holds then 1 else 0) }
    ensures low { result ≤ 1 }
{
    if holds { 1 } else { 0 }
}

/// The cells with that of a definition, where it has one.
fn lay_definition(laid: Laid, index: u32, cell: Option<Cell>) -> Result<Laid, NoMemory>
    ensures roles { IfOk result (λ after. after.roles ≡ laid.roles ++ own_role index cell) }
    ensures cells { IfOk result (λ after. after.cells
        ≡ laid.cells ++ map (λ r. cell_or_bit cell) (own_role index cell)) }
{
    match cell {
        Some(cell) => laid.with(Role::Value(index), cell),
        None => Ok(laid),
    }
}

/// The cells of all definitions.
pub(crate) fn lay_definitions(alloc: Global, defs: &[Def]) -> Result<Laid, NoMemory>
    ensures roles { IfOk result (λ laid. laid.roles ≡ value_roles defs.now (length defs.now)) }
    ensures cells { IfOk result (HoldCells defs.now) }
{
    let Ok(count) = u32::try_from(defs.len()) else {
        return Err(NoMemory);
    };
    let mut laid = Laid::new(alloc);
    let mut inputs = 0;
    let mut outputs = 0;
    for index in 0..count {
        let what = defs[index as usize].what;
        laid = lay_definition(laid, index, cell_of(what, inputs, outputs))?;
        inputs += one_if(what.is_input());
        outputs += one_if(what.is_output());
    }
    Ok(laid)
}
