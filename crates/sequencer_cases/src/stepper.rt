//! Transfers, stepped clock by clock.

ghost use Rattle.std.specs.Prelude.{◌<◌, ◌≤◌};

use mp_base::join;
use rtl_form::{CellKind, Rtl, RtlExpr};
use std::alloc::{AllocError, Global};

// An entry, or 0 where there is none.
fn entry(values: &[u64], index: u32) -> u64 {
    match values.get(index as usize) {
        Some(value) => *value,
        None => 0,
    }
}

fn width_of(rtl: &Rtl) -> u8
    ensures some { 0 < result }
    ensures narrow { result ≤ 64 }
{
    if rtl.width == 0 {
        1
    } else if rtl.width > 64 {
        64
    } else {
        rtl.width
    }
}

// The values of all expressions, where those of all cells are known.
fn values_of(alloc: Global, rtl: &Rtl, cells: &[u64]) -> Result<Vec<u64>, AllocError> {
    let mut values = Vec::new(alloc);
    let mut operands = Vec::new(alloc);
    for expr in rtl.exprs.as_slice() {
        let value = match expr {
            RtlExpr::Number(number) => *number,
            RtlExpr::Truth(holds) => u64::from(*holds),
            RtlExpr::Cell(cell) => entry(cells, *cell),
            RtlExpr::Apply { op, index, args } => {
                operands.clear();
                for arg in args.as_slice() {
                    operands.push(entry(&values, *arg))?;
                }
                op.apply(width_of(rtl), *index, &operands)
            }
        };
        values.push(value)?;
    }
    Ok(values)
}

// What transfers write to a cell.
fn written(rtl: &Rtl, values: &[u64], cell: u32) -> Option<u64> {
    let mut found = None;
    for transfer in rtl.transfers.as_slice() {
        if transfer.target == cell && entry(values, transfer.guard) == 1 {
            found = join(found, Some(entry(values, transfer.value)));
        }
    }
    found
}

fn set(values: &mut [u64], index: u32, value: u64) {
    if (index as usize) < values.len() {
        values[index as usize] = value;
    }
}

/// A clock: from the values of the stored cells it goes to the next, and answers the values of all cells.
pub(crate) fn step(
    alloc: Global,
    rtl: &Rtl,
    stored: &mut [u64],
    inputs: &[u64],
) -> Result<Vec<u64>, AllocError> {
    let mut cells = Vec::from_slice(alloc, stored)?;
    let mut index = 0u32;
    for cell in rtl.cells.as_slice() {
        if let CellKind::Input(pad) = cell.kind {
            set(&mut cells, index, entry(inputs, pad));
        }
        index = index.saturating_add(1);
    }
    for cell in rtl.order.as_slice() {
        let values = values_of(alloc, rtl, &cells)?;
        let value = written(rtl, &values, *cell);
        set(&mut cells, *cell, value.unwrap_or(0));
    }
    let values = values_of(alloc, rtl, &cells)?;
    let resets = match rtl.reset {
        Some(reset) => entry(&cells, reset) == 1,
        None => false,
    };
    let mut index = 0u32;
    for cell in rtl.cells.as_slice() {
        if let CellKind::Stored = cell.kind {
            let kept = entry(stored, index);
            let next = written(rtl, &values, index).unwrap_or(kept);
            set(stored, index, if resets { 0 } else { next });
        }
        index = index.saturating_add(1);
    }
    Ok(cells)
}

/// Whether an output pad shows the value of each output cell.
pub(crate) fn shows(rtl: &Rtl, cells: &[u64], outputs: &[u64]) -> bool {
    let mut index = 0u32;
    for cell in rtl.cells.as_slice() {
        if let CellKind::Output(pad) = cell.kind {
            if entry(cells, index) != entry(outputs, pad) {
                return false;
            }
        }
        index = index.saturating_add(1);
    }
    true
}
