//! Numbers by name.

ghost use Rattle.std.specs.Prelude.{◌≡◌, ◌↔◌, ℕ, List, Some, IfOk, OnOk, IsSome, Contains, cond};
ghost use Rattle.std.specs.Str.{bytes_eq};
ghost use Rattle.clock_run.specs.Numbers.{NumberNodes};
ghost use Rattle.switch_net.specs.Names.{number_of};

use mp_base::Name;
use std::alloc::{AllocError, Global};
use std::collections::BTreeMap;
use switch_net::Tag;

/// The number of a name, if it has one.
pub(crate) fn number_of<'a>(numbers: &BTreeMap<&'a [u8], u32>, name: &'a [u8]) -> Option<u32>
    ensures { result ≡ number_of numbers.now name.now }
{
    numbers.get(&name).copied()
}

/// Gives a name its number.
fn set<'a>(
    numbers: &mut BTreeMap<&'a [u8], u32>,
    name: &'a [u8],
    number: u32,
) -> Result<(), AllocError>
    ensures { OnOk result ((x : List ℕ) → number_of numbers.new x
        ≡ cond (bytes_eq name.now x) (Some number) (number_of numbers.old x)) }
{
    numbers.insert(name, number)?;
    Ok(())
}

/// The names of a list, each with some number.
pub(crate) fn names_of<'a>(
    alloc: Global,
    names: &'a [Name],
) -> Result<BTreeMap<&'a [u8], u32>, AllocError>
    ensures { IfOk result (λ numbers. (x : List ℕ) → IsSome (number_of numbers x) ↔ Contains names.now x) }
{
    let mut numbers = BTreeMap::new(alloc);
    for name in names {
        set(&mut numbers, name.bytes(), 0)?;
    }
    Ok(numbers)
}

/// The node of each label.
pub(crate) fn nodes_of<'a>(
    alloc: Global,
    tags: &'a [Tag],
) -> Result<BTreeMap<&'a [u8], u32>, AllocError>
    ensures { IfOk result (λ numbers. NumberNodes tags.now numbers) }
{
    let mut numbers = BTreeMap::new(alloc);
    for tag in tags {
        set(&mut numbers, tag.name.bytes(), tag.node)?;
    }
    Ok(numbers)
}
