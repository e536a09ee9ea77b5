//! Whether pads and cells go together.

ghost use Rattle.std.specs.Prelude.{◌≡◌, ◌⊎◌, ◌↔◌, ◌==◌, not, IsTrue};
ghost use Rattle.std.specs.List.{count_by};
ghost use Rattle.rtl_form.specs.declared.rtl.CellKind.TheVariants.{Input, Output};
ghost use Rattle.rtl_form.specs.Sound.{CellFits, IsCellOf};
ghost use Rattle.rtl_check.specs.Kinds.{is_input, is_output};
ghost use Rattle.rtl_check.specs.Parts.{
  CellsFit,
  HasOne,
  HasPads,
  HaveInputs,
  HaveOutputs,
  HaveWidth,
  PadsHaveCells,
  PadsHaveWidth,
};

use crate::entries::entry;
use mp_base::{List, Pad};
use rtl_form::{Cell, CellKind, Rtl};

// Whether a pad has this width, or the width 0.
fn width_fits(pad: &Pad, width: u8) -> bool
    ensures { IsTrue result ↔ (pad.now.width ≡ width) ⊎ (pad.now.width ≡ 0) }
{
    pad.width == width || pad.width == 0
}

// The same of all pads.
fn widths_fit(pads: &[Pad], width: u8) -> bool
    ensures { IsTrue result ↔ HaveWidth width pads.now }
{
    pads.iter().all(|pad| width_fits(pad, width))
}

fn is_input(cell: &Cell, pad: usize) -> bool
    ensures { result ≡ is_input pad cell.now }
{
    match cell.kind {
        CellKind::Input(input) => input as usize == pad,
        _ => false,
    }
}

fn is_output(cell: &Cell, pad: usize) -> bool
    ensures { result ≡ is_output pad cell.now }
{
    match cell.kind {
        CellKind::Output(output) => output as usize == pad,
        _ => false,
    }
}

// How many cells are of an input pad.
fn count_inputs(cells: &[Cell], pad: usize) -> usize
    ensures { result ≡ count_by (is_input pad) cells.now }
{
    cells.iter().filter(|cell| is_input(cell, pad)).count()
}

// How many cells are of an output pad.
fn count_outputs(cells: &[Cell], pad: usize) -> usize
    ensures { result ≡ count_by (is_output pad) cells.now }
{
    cells.iter().filter(|cell| is_output(cell, pad)).count()
}

// Whether exactly one cell is of an input pad.
fn has_input(cells: &List<Cell>, pad: usize) -> bool
    ensures { IsTrue result ↔ HasOne cells.now (Input pad) }
{
    count_inputs(cells.as_slice(), pad) == 1
}

// Whether exactly one cell is of an output pad.
fn has_output(cells: &List<Cell>, pad: usize) -> bool
    ensures { IsTrue result ↔ HasOne cells.now (Output pad) }
{
    count_outputs(cells.as_slice(), pad) == 1
}

// Whether exactly one cell is of each of so many input pads.
fn have_inputs(cells: &List<Cell>, count: usize) -> bool
    ensures { IsTrue result ↔ HaveInputs cells.now count }
{
    for pad in 0..count {
        if !has_input(cells, pad) {
            return false;
        }
    }
    true
}

// Whether exactly one cell is of each of so many output pads.
fn have_outputs(cells: &List<Cell>, count: usize) -> bool
    ensures { IsTrue result ↔ HaveOutputs cells.now count }
{
    for pad in 0..count {
        if !has_output(cells, pad) {
            return false;
        }
    }
    true
}

// Whether a pad is for a word, or else for a bit.
fn is_for(pad: &Pad, word: bool) -> bool
    ensures { IsTrue result ↔ (word ≡ not (pad.now.width == 0)) }
{
    word == (pad.width != 0)
}

// Whether there is a pad at this index, for a word, or else for a bit.
fn has_pad(pads: &List<Pad>, index: u32, word: bool) -> bool
    ensures { IsTrue result ↔ IsCellOf pads.now index word }
{
    match entry(pads, index) {
        Some(pad) => is_for(pad, word),
        None => false,
    }
}

fn cell_fits(rtl: &Rtl, cell: &Cell) -> bool
    ensures { IsTrue result ↔ CellFits rtl.now cell.now cell.now.kind }
{
    match cell.kind {
        CellKind::Input(pad) => has_pad(&rtl.pads.inputs, pad, cell.word),
        CellKind::Output(pad) => has_pad(&rtl.pads.outputs, pad, cell.word),
        CellKind::Inner | CellKind::Stored => true,
    }
}

// Whether all cells fit their pads, where they are of one.
fn cells_fit(rtl: &Rtl) -> bool
    ensures { IsTrue result ↔ CellsFit rtl.now }
{
    let cells = rtl.cells.as_slice();
    for c in 0..cells.len() {
        if !cell_fits(rtl, &cells[c]) {
            return false;
        }
    }
    true
}

// Whether all pads have the width of the transfers, or the width 0.
fn pads_have_width(rtl: &Rtl) -> bool
    ensures { IsTrue result ↔ PadsHaveWidth rtl.now }
{
    widths_fit(rtl.pads.inputs.as_slice(), rtl.width)
        && widths_fit(rtl.pads.outputs.as_slice(), rtl.width)
}

// Whether each pad has exactly one cell.
fn pads_have_cells(rtl: &Rtl) -> bool
    ensures { IsTrue result ↔ PadsHaveCells rtl.now }
{
    have_inputs(&rtl.cells, rtl.pads.inputs.len())
        && have_outputs(&rtl.cells, rtl.pads.outputs.len())
}

/// Whether pads and cells go together.
pub(crate) fn has_pads(rtl: &Rtl) -> bool
    ensures { IsTrue result ↔ HasPads rtl.now }
{
    pads_have_width(rtl) && pads_have_cells(rtl) && cells_fit(rtl)
}
