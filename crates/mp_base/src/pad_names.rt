//! Which names may stand side by side as those of pads.

ghost use Rattle.std.specs.Prelude.{◌≡◌, map, IfOk, MatchBool};
ghost use Rattle.std.specs.List.{list_all};
ghost use Rattle.mp_base.specs.Token.{is_token};
ghost use Rattle.mp_base.specs.PadNames.{is_run, is_supply, is_pad_name, ArePadNames};

use crate::token::is_token;
use std::alloc::{AllocError, Global};
use std::collections::BTreeSet;

fn all_tokens(name: &[u8]) -> bool
    ensures { result ≡ list_all is_token name.now }
{
    name.iter().all(|byte| is_token(*byte))
}

fn is_run(name: &[u8]) -> bool
    ensures { result ≡ is_run name.now }
{
    match name {
        [] => false,
        _ => all_tokens(name),
    }
}

/// Whether the name labels a supply or a phase, so that no pad may have it.
pub fn is_supply(name: &[u8]) -> bool
    ensures { result ≡ is_supply name.now }
{
    name == b"vdd".as_slice()
        || name == b"gnd".as_slice()
        || name == b"phia".as_slice()
        || name == b"phib".as_slice()
        || name == b"phic".as_slice()
}

fn is_pad_name(name: &[u8]) -> bool
    ensures { result ≡ is_pad_name name.now }
{
    is_run(name) && !is_supply(name)
}

/// Whether each may name a pad, and all differ.
pub(crate) fn are_pad_names(alloc: Global, names: &[&[u8]]) -> Result<bool, AllocError>
    ensures { IfOk result (λ holds. MatchBool holds (ArePadNames (map (λ name. name.now) names.now))
        (¬ ArePadNames (map (λ name. name.now) names.now))) }
{
    let mut seen = BTreeSet::new(alloc);
    for name in names {
        if !is_pad_name(name) {
            return Ok(false);
        }
        if !seen.insert(*name)? {
            return Ok(false);
        }
    }
    Ok(true)
}
