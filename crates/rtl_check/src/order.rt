//! Whether an order of evaluation is one.

ghost use Rattle.std.specs.Prelude.{◌≡◌, ◌≢◌, ◌↔◌, ℕ, ◌<◌, All, IsTrue, length, slice_index, true};
ghost use Rattle.rtl_form.specs.Environment.{is_driven};
ghost use Rattle.rtl_check.specs.Reading.{
  AllReadBefore,
  AreDistinct,
  BothReadOnly,
  ExprsFit,
  HasAllDriven,
  HasOrder,
  HasPlace,
  IsDriven,
  IsKnown,
  ListsDriven,
  ReadsBefore,
  ReadsOnly,
  operands_of,
};

use crate::entries::entry;
use rtl_form::{Cell, CellKind, Rtl, RtlExpr, Transfer};

fn is_driven(cell: &Cell) -> bool
    ensures { result ≡ is_driven cell.now.kind }
{
    matches!(cell.kind, CellKind::Output(_) | CellKind::Inner)
}

// Whether there is a driven cell at this index.
fn has_driven(cells: &[Cell], cell: u32) -> bool
    ensures { IsTrue result ↔ IsDriven cells.now cell }
{
    match cells.get(cell as usize) {
        Some(cell) => is_driven(cell),
        None => false,
    }
}

// Whether an expression, if it is a driven cell, is a known one.
fn is_known(cells: &[Cell], known: &[u32], expr: &RtlExpr) -> bool
    ensures { IsTrue result ↔ IsKnown cells.now known.now expr.now }
{
    match expr {
        RtlExpr::Cell(cell) => !has_driven(cells, *cell) || known.contains(cell),
        _ => true,
    }
}

fn operands(expr: &RtlExpr) -> &[u32]
    ensures { result.now ≡ operands_of expr.now }
{
    match expr {
        RtlExpr::Apply { args, .. } => args.as_slice(),
        _ => &[],
    }
}

// Whether an expression reads no driven cells but known ones.
fn reads_only(rtl: &Rtl, known: &[u32], expr: u32) -> bool
    requires { ExprsFit rtl.now }
    ensures { IsTrue result ↔ ReadsOnly rtl.now known.now expr }
{
    let Some(expr) = entry(&rtl.exprs, expr) else {
        return true;
    };
    for arg in operands(expr) {
        if !reads_only(rtl, known, *arg) {
            return false;
        }
    }
    is_known(rtl.cells.as_slice(), known, expr)
}

// The same of the guard and the value of a transfer.
fn both_read_only(rtl: &Rtl, known: &[u32], transfer: &Transfer) -> bool
    requires { ExprsFit rtl.now }
    ensures { IsTrue result ↔ BothReadOnly rtl.now known.now transfer.now }
{
    reads_only(rtl, known, transfer.guard) && reads_only(rtl, known, transfer.value)
}

// Whether a transfer reads no driven cells but those that stand in the order before its target.
fn reads_before(rtl: &Rtl, transfer: &Transfer) -> bool
    requires { ExprsFit rtl.now }
    ensures { IsTrue result ↔ ReadsBefore rtl.now transfer.now }
{
    let order = rtl.order.as_slice();
    for k in 0..order.len() {
        if order[k] == transfer.target && !both_read_only(rtl, &order[..k], transfer) {
            return false;
        }
    }
    true
}

// The same of all transfers.
fn all_read_before(rtl: &Rtl) -> bool
    requires { ExprsFit rtl.now }
    ensures { IsTrue result ↔ AllReadBefore rtl.now }
{
    let transfers = rtl.transfers.as_slice();
    for k in 0..transfers.len() {
        if !reads_before(rtl, &transfers[k]) {
            return false;
        }
    }
    true
}

// Whether the order has driven cells alone.
fn has_driven_only(rtl: &Rtl) -> bool
    ensures { IsTrue result ↔ All (IsDriven rtl.now.cells) rtl.now.order }
{
    let cells = rtl.cells.as_slice();
    rtl.order
        .as_slice()
        .iter()
        .all(|cell| has_driven(cells, *cell))
}

// Whether the cell at a place of an order doesn't stand before it.
fn is_first(order: &[u32], k: usize) -> bool
    requires { k < length order.now }
    ensures { IsTrue result ↔ ((j : ℕ) → j < k → slice_index order.now j ≢ slice_index order.now k) }
{
    !order[..k].contains(&order[k])
}

// Whether no cell stands twice in an order.
fn are_distinct(order: &[u32]) -> bool
    ensures { IsTrue result ↔ AreDistinct order.now }
{
    for k in 0..order.len() {
        if !is_first(order, k) {
            return false;
        }
    }
    true
}

// Whether a cell stands in an order.
fn has_place(order: &[u32], cell: usize) -> bool
    ensures { IsTrue result ↔ HasPlace order.now cell }
{
    order.iter().any(|entry| *entry as usize == cell)
}

// Whether the cell at an index stands in an order, if it is driven.
fn is_placed(order: &[u32], index: usize, cell: &Cell) -> bool
    ensures { IsTrue result ↔ (is_driven cell.now.kind ≡ true → HasPlace order.now index) }
{
    !is_driven(cell) || has_place(order, index)
}

// Whether the order has each driven cell.
fn has_all_driven(rtl: &Rtl) -> bool
    ensures { IsTrue result ↔ HasAllDriven rtl.now }
{
    let cells = rtl.cells.as_slice();
    for c in 0..cells.len() {
        if !is_placed(rtl.order.as_slice(), c, &cells[c]) {
            return false;
        }
    }
    true
}

// Whether the order has each driven cell once, and no others.
fn lists_driven(rtl: &Rtl) -> bool
    ensures { IsTrue result ↔ ListsDriven rtl.now }
{
    has_driven_only(rtl) && are_distinct(rtl.order.as_slice()) && has_all_driven(rtl)
}

/// Whether the order of evaluation is one.
pub(crate) fn has_order(rtl: &Rtl) -> bool
    requires { ExprsFit rtl.now }
    ensures { IsTrue result ↔ HasOrder rtl.now }
{
    lists_driven(rtl) && all_read_before(rtl)
}
