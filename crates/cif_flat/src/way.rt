//! The names of labels: how they begin, and which were met.

ghost use Rattle.std.specs.Prelude.{◌≡◌, ◌++◌, ◌∷◌, ◌||◌, [], ℕ, List, IfOk, OnOk};
ghost use Rattle.cif_flat.specs.Naming.{way_of};
ghost use Rattle.cif_flat.specs.Meeting.{IsWay, was_met, is_name};

use crate::level::Level;
use cif_list::Cif;
use mp_base::Name;
use std::alloc::{AllocError, Global};
use std::collections::HashSet;

/// The names of labels that were met.
pub(crate) type Met = HashSet<Vec<u8>>;

/// Whether a label of a name was met.
pub(crate) fn is_met(met: &HashSet<Vec<u8>>, name: &[u8]) -> bool
    ensures { result ≡ was_met met.now name.now }
{
    met.contains(name)
}

/// Notes that a label of a name was met.
pub(crate) fn meet(alloc: Global, met: &mut HashSet<Vec<u8>>, name: &[u8]) -> Result<(), AllocError>
    ensures { OnOk result ((q : List ℕ) → was_met met.new q ≡ (is_name name.now q || was_met met.old q)) }
{
    let name = Vec::from_slice(alloc, name)?;
    met.insert(name)?;
    Ok(())
}

/// How the names of labels begin in a list of commands that is walked inside of others: nothing where a symbol on the
/// way has no name.
pub(crate) fn way_to(
    alloc: Global,
    items: &Cif,
    levels: &[Level],
    level: Level,
) -> Result<Option<Vec<u8>>, AllocError>
    ensures { IfOk result (IsWay (way_of items.now (levels.now ++ level ∷ []))) }
{
    let mut way = Vec::new(alloc);
    let Some((_, inner)) = levels.split_first() else {
        return Ok(Some(way));
    };
    let Some(own) = level.named else {
        return Ok(None);
    };
    for outer in inner {
        let Some(named) = outer.named else {
            return Ok(None);
        };
        way.extend_from_slice(named.bytes(items))?;
        way.push(b'/')?;
    }
    way.extend_from_slice(own.bytes(items))?;
    way.push(b'/')?;
    Ok(Some(way))
}

/// A way and a name behind it.
pub(crate) fn joined(way: Vec<u8>, name: &[u8]) -> Result<Name, AllocError>
    ensures { IfOk result (λ n. n ≡ way.items ++ name.now) }
{
    let mut bytes = way;
    bytes.extend_from_slice(name)?;
    Ok(Name::from_vec(bytes))
}
