//! Whether there is the `reset` that stored cells want.

ghost use Rattle.std.specs.Prelude.{◌≡◌, ◌↔◌, IsTrue};
ghost use Rattle.std.specs.List.{list_any};
ghost use Rattle.rtl_form.specs.declared.rtl.Cell.{Cell};
ghost use Rattle.rtl_form.specs.Environment.{is_stored};
ghost use Rattle.rtl_check.specs.Parts.{HasReset, IsResetCell, IsResetKind, IsResetPad};

use crate::entries::entry;
use mp_base::{List, Pad};
use rtl_form::{Cell, CellKind, Rtl};

fn is_reset_pad(pad: &Pad) -> bool
    ensures { IsTrue result ↔ IsResetPad pad.now }
{
    pad.width == 0 && pad.name.bytes() == b"reset".as_slice()
}

// Whether a kind is that of the input signal `reset`.
fn is_reset_kind(pads: &List<Pad>, kind: CellKind) -> bool
    ensures { IsTrue result ↔ IsResetKind pads.now kind }
{
    let CellKind::Input(number) = kind else {
        return false;
    };
    match entry(pads, number) {
        Some(pad) => is_reset_pad(pad),
        None => false,
    }
}

// Whether this is the cell of the input signal `reset`.
fn is_reset(rtl: &Rtl, cell: u32) -> bool
    ensures { IsTrue result ↔ IsResetCell rtl.now cell }
{
    match entry(&rtl.cells, cell) {
        Some(cell) => is_reset_kind(&rtl.pads.inputs, cell.kind),
        None => false,
    }
}

fn is_stored(cell: &Cell) -> bool
    ensures { result ≡ is_stored cell.now.kind }
{
    matches!(cell.kind, CellKind::Stored)
}

fn stores(cells: &[Cell]) -> bool
    ensures { result ≡ list_any (λ (x : Cell). is_stored x.kind) cells.now }
{
    cells.iter().any(is_stored)
}

/// Whether `reset` is the cell of the input signal `reset`, and is there where a cell is stored.
pub(crate) fn has_reset(rtl: &Rtl) -> bool
    ensures { IsTrue result ↔ HasReset rtl.now }
{
    match rtl.reset {
        Some(cell) => is_reset(rtl, cell),
        None => !stores(rtl.cells.as_slice()),
    }
}
