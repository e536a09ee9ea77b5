//! How often the symbols of a file of masks are called, and how many labels it has, for programs of cases. A chip of
//! several slices has one symbol for what stands alike in all of them, which is called once for each.
#![tactic(auto)]

use cif_list::{Cif, CommandView};
use cif_reader::read_cif;
use std::alloc::{AllocError, Global};

// How often a symbol is called.
fn calls_of(cif: &Cif, symbol: i64) -> u32 {
    let mut calls: u32 = 0;
    for index in 0..cif.len() {
        if let CommandView::Call { number, .. } = cif.at(index).command {
            if number == symbol {
                calls = calls.saturating_add(1);
            }
        }
    }
    calls
}

fn labels_of(cif: &Cif) -> u32 {
    let mut labels: u32 = 0;
    for index in 0..cif.len() {
        if let CommandView::User { .. } = cif.at(index).command {
            labels = labels.saturating_add(1);
        }
    }
    labels
}

fn push_calls(told: &mut String, cif: &Cif) -> Result<(), AllocError> {
    for index in 0..cif.len() {
        if let CommandView::Start { number, .. } = cif.at(index).command {
            writeln!(told, "    symbol {number}: {} calls", calls_of(cif, number))?;
        }
    }
    writeln!(told, "    {} labels", labels_of(cif))
}

/// Tells the symbols that a text of masks defines, with the calls of each, and the count of its labels.
pub fn push_symbols(alloc: Global, told: &mut String, masks: &[u8]) -> Result<(), AllocError> {
    match read_cif(alloc, masks) {
        Ok(cif) => push_calls(told, &cif),
        Err(_) => told.push_str("    refused\n"),
    }
}
