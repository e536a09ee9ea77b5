//! Whether transfers fit.

ghost use Rattle.std.specs.Prelude.{◌↔◌, IsTrue};
ghost use Rattle.rtl_check.specs.Parts.{AreFitting, IsFitting};

use crate::exprs::has_sort;
use rtl_form::{CellKind, Rtl, Transfer};

fn transfer_fits(rtl: &Rtl, transfer: &Transfer) -> bool
    ensures { IsTrue result ↔ IsFitting rtl.now transfer.now }
{
    match rtl.cells.as_slice().get(transfer.target as usize) {
        Some(cell) => {
            has_sort(rtl, transfer.guard, false)
                && has_sort(rtl, transfer.value, cell.word)
                && !matches!(cell.kind, CellKind::Input(_))
        }
        None => false,
    }
}

/// Whether all transfers fit.
pub(crate) fn transfers_fit(rtl: &Rtl) -> bool
    ensures { IsTrue result ↔ AreFitting rtl.now }
{
    let transfers = rtl.transfers.as_slice();
    for k in 0..transfers.len() {
        if !transfer_fits(rtl, &transfers[k]) {
            return false;
        }
    }
    true
}
