//! All transfers of a program.

ghost use Rattle.std.specs.Prelude.{IfOk};
ghost use Rattle.mp_rules.specs.Breaking.{IsUnbroken};
ghost use Rattle.process_plan.specs.Roles.{AreCells};
ghost use Rattle.process_layout.specs.Steps.{IsEnabling, IsTransferring};

use crate::forms::form_transfers;
use crate::roles::{Control, Motion, motion_transfers, readings_of};
use mp_base::{List, NoMemory};
use mp_program::Program;
use process_jumps::{all_jumps, moves_in};
use process_layout::{Enabling, Layout};
use rtl_form::{RtlExpr, Transfer};
use std::alloc::Global;

/// The transfers of a program, and its expressions, of which those of an enabling are the first.
#[derive(Drop)]
pub struct Transfers {
    pub exprs: List<RtlExpr>,
    pub transfers: List<Transfer>,
}

/// The transfers of a program, by the cells that a layout gives and by the enables of its forms.
///
/// # Errors
///
/// `NoMemory`.
pub fn transfers_of(
    alloc: Global,
    program: &Program,
    layout: &Layout,
    enabling: Enabling,
) -> Result<Transfers, NoMemory>
    requires unbroken { IsUnbroken program.now }
    requires cells { AreCells program.now layout.now.roles layout.now.cells }
    requires enabled { IsEnabling program.now layout.now.roles layout.now.cells enabling }
    ensures { IfOk result (λ t. IsTransferring program.now layout.now.roles layout.now.cells enabling t.exprs
        t.transfers) }
{
    let Enabling {
        mut exprs,
        enables,
        places,
    } = enabling;
    let forms = program.forms.as_slice();
    let moves = moves_in(alloc, forms, enables.as_slice())?;
    let jumps = all_jumps(alloc, program, &enables, moves.as_slice(), &mut exprs)?;
    let readings = readings_of(alloc, layout.roles.as_slice(), &mut exprs)?;
    let control = Control {
        jumps,
        places,
        readings,
    };
    let mut transfers = List::new(alloc);
    form_transfers(program, layout, enables.as_slice(), &mut transfers)?;
    motion_transfers(program, layout, &control, Motion::Fall, &mut transfers)?;
    motion_transfers(program, layout, &control, Motion::Push, &mut transfers)?;
    motion_transfers(program, layout, &control, Motion::Pop, &mut transfers)?;
    motion_transfers(program, layout, &control, Motion::Back, &mut transfers)?;
    Ok(Transfers { exprs, transfers })
}
