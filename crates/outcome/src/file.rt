//! Files that are read up to a limit.

ghost use Rattle.std.specs.Prelude.{◌≡◌, ◌≤◌, ◌<◌, ◌^◌, length, IfOk, IfSome};
ghost use Rattle.std.specs.FinMap.{get};
ghost use Rattle.outside.specs.Outside.{Keeps};
ghost use Rattle.outcome.specs.Order.{OfLength, IsContent, too_long};
ghost use Rattle.outcome.specs.Halt.{HasReason};

use crate::halt::Halt;
use mp_base::{Broken, Family, Name, Rule, Spot};
use outside::{Depot, read_file};
use std::alloc::{AllocError, Global};

fn too_long(alloc: Global, name: &str) -> Result<Broken, AllocError>
    ensures { IfOk result (λ broken. broken ≡ too_long name.now) }
{
    Ok(Broken {
        rule: Rule {
            family: Family::L,
            number: 1,
        },
        spot: Spot::Named(Name::from_slice(alloc, name.as_bytes())?),
    })
}

/// Reads a file that is not longer than a limit, in bytes.
///
/// # Errors
///
/// A read fault where a read failed or the file is not held, rule L1 where the file is longer, or want of memory.
pub fn read_text<D: Depot>(
    alloc: Global,
    depot: &mut D,
    name: &str,
    limit: usize,
) -> Result<Vec<u8>, Halt>
    requires { limit < 2 ^ 32 }
    ensures held { Keeps (D.held depot.old) (D.held depot.new) }
    ensures text { IfOk result (λ text. IfSome (D.held depot.new)
        (λ files. IsContent limit (get files name.now) text.items)) }
    ensures small { IfOk result (λ text. length text.items ≤ limit) }
    ensures reason { HasReason (λ files. OfLength limit name.now (get files name.now)) (D.held depot.new)
        (D.read_faults depot.old) (D.read_faults depot.new) result }
    ensures writes { D.write_faults depot.new ≡ D.write_faults depot.old }
{
    match read_file(alloc, depot, name, limit)? {
        Some(text) => Ok(text),
        None => Err(Halt::Refused(too_long(alloc, name)?)),
    }
}
