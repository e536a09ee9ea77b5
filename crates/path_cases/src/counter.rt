//! Transfers made by hand: a counter of one bit, which shows what it stores.

ghost use Rattle.std.specs.Prelude.{◌≡◌, ◌≤◌, [], ◌∷◌, IfOk, IfSome};
ghost use Rattle.path_cases.specs.Counter.{AreCounterPads, IsCounter, ShowsCounter};
ghost use Rattle.path_cases.specs.Counter.{counter_cells, counter_exprs, counter_transfers};

use crate::steps::flat_of;
use mp_base::{List, Name, NoMemory, Op, Pad, Pads};
use path_form::Flattened;
use rtl_check::is_sound;
use rtl_form::{Cell, CellKind, Rtl, RtlExpr, Transfer};
use std::alloc::{AllocError, Global};

fn pad(alloc: Global, name: &str, width: u8) -> Result<Pad, NoMemory>
    requires { width ≤ 64 }
    ensures name { IfOk result (λ pad. pad.name ≡ name.now) }
    ensures width { IfOk result (λ pad. pad.width ≡ width) }
{
    Ok(Pad {
        name: Name::from_slice(alloc, name.as_bytes())?,
        width,
    })
}

fn listed(alloc: Global, pad: Pad) -> Result<List<Pad>, AllocError>
    ensures { IfOk result (λ list. list ≡ pad ∷ []) }
{
    Ok(List::from_vec(vec![in alloc; pad]?))
}

fn pads(alloc: Global) -> Result<Option<Pads>, NoMemory>
    ensures { IfOk result (λ found. IfSome found AreCounterPads) }
{
    let reset = pad(alloc, "reset", 0)?;
    let inputs = listed(alloc, reset)?;
    let shown = pad(alloc, "q", 1)?;
    let outputs = listed(alloc, shown)?;
    Pads::new(alloc, inputs, outputs)
}

fn only_one(alloc: Global) -> Result<List<u32>, AllocError>
    ensures { IfOk result (λ list. list ≡ 1 ∷ []) }
{
    Ok(List::from_vec(vec![in alloc; 1]?))
}

fn cells(alloc: Global) -> Result<List<Cell>, AllocError>
    ensures { IfOk result (λ cells. cells ≡ counter_cells) }
{
    let reset = Cell {
        word: false,
        kind: CellKind::Input(0),
    };
    let shown = Cell {
        word: true,
        kind: CellKind::Output(0),
    };
    let stored = Cell {
        word: true,
        kind: CellKind::Stored,
    };
    Ok(List::from_vec(vec![in alloc; reset, shown, stored]?))
}

// True, the counter, and one more.
fn exprs(alloc: Global) -> Result<List<RtlExpr>, AllocError>
    ensures { IfOk result (λ exprs. exprs ≡ counter_exprs) }
{
    let args = only_one(alloc)?;
    let more = RtlExpr::Apply {
        op: Op::Inc,
        index: 0,
        args,
    };
    let exprs = vec![in alloc; RtlExpr::Truth(true), RtlExpr::Cell(2), more]?;
    Ok(List::from_vec(exprs))
}

fn transfers(alloc: Global) -> Result<List<Transfer>, AllocError>
    ensures { IfOk result (λ transfers. transfers ≡ counter_transfers) }
{
    let show = Transfer {
        guard: 0,
        target: 1,
        value: 1,
    };
    let store = Transfer {
        guard: 0,
        target: 2,
        value: 2,
    };
    Ok(List::from_vec(vec![in alloc; show, store]?))
}

// The counter.
fn counter(alloc: Global) -> Result<Option<Rtl>, NoMemory>
    ensures { IfOk result (λ found. IfSome found IsCounter) }
{
    let Some(pads) = pads(alloc)? else {
        return Ok(None);
    };
    let cells = cells(alloc)?;
    let exprs = exprs(alloc)?;
    let transfers = transfers(alloc)?;
    let order = only_one(alloc)?;
    Ok(Some(Rtl {
        width: 1,
        pads,
        cells,
        exprs,
        transfers,
        order,
        reset: Some(0),
    }))
}

// Its flat net, if the transfers fit together.
fn flat_if_sound(alloc: Global, rtl: &Rtl) -> Result<Option<Flattened>, NoMemory>
    requires { IsCounter rtl.now }
    ensures { IfOk result (λ found. IfSome found ShowsCounter) }
{
    if !is_sound(rtl) {
        return Ok(None);
    }
    let flat = flat_of(alloc, rtl)?;
    Ok(Some(flat))
}

/// A flat net that shows the counter, if its transfers fit together.
///
/// # Errors
///
/// `NoMemory`.
pub(crate) fn flat_counter(alloc: Global) -> Result<Option<Flattened>, NoMemory>
    ensures { IfOk result (λ found. IfSome found ShowsCounter) }
{
    match counter(alloc)? {
        Some(rtl) => flat_if_sound(alloc, &rtl),
        None => Ok(None),
    }
}
