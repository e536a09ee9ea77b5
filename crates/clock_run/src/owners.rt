//! Rule N3: two drivers on one node.

ghost use Rattle.std.specs.Prelude.{◌≡◌, ◌<◌, ◌+◌, ℕ, List, IfOk, IsTrue, IsFalse, Contains, MatchOption};
ghost use Rattle.std.specs.Prelude.{length, slice_get};
ghost use Rattle.std.specs.Option.{is_some};
ghost use Rattle.std.specs.Str.{bytes_eq};
ghost use Rattle.switch_net.specs.declared.network.Tag.{Tag as TagValue};
ghost use Rattle.switch_net.specs.Breaks.{MeetsDriver, IsDrivenTwice};
ghost use Rattle.switch_net.specs.Names.{number_of};
ghost use Rattle.clock_run.specs.Owners.{IsFirstMeeting, AreWithin, AreOwners};

use crate::numbers::{names_of, number_of};
use mp_base::Name;
use std::alloc::{AllocError, Global};
use std::collections::BTreeMap;
use switch_net::{Network, Tag};

/// Whether a label names one of these drivers.
fn is_driver<'a>(names: &BTreeMap<&'a [u8], u32>, tag: &'a Tag) -> bool
    ensures { result ≡ is_some (number_of names.now tag.now.name) }
{
    number_of(names, tag.name.bytes()).is_some()
}

/// Whether two labels have one name.
fn same_name(one: &Tag, other: &Tag) -> bool
    ensures { result ≡ bytes_eq one.now.name other.now.name }
{
    one.name.bytes() == other.name.bytes()
}

/// Whether the first label of a driver on the node of this label, which names one too, has another name. Where none
/// came before it, it is the first.
fn meets_another(tags: &[Tag], i: usize, owners: &mut [Option<usize>]) -> bool
    requires inside { i < length tags.now }
    requires nodes { AreWithin tags.now owners.old }
    ensures sized { length owners.new ≡ length owners.old }
    ensures within { AreWithin tags.now owners.new }
    ensures met { IsTrue result → (drivers : List (List ℕ)) (t : TagValue) → slice_get tags.now i ≡ Some t
        → Contains drivers t.name → AreOwners drivers tags.now owners.old i → IsDrivenTwice drivers tags.now i t }
    ensures noted { IsFalse result → (drivers : List (List ℕ)) (t : TagValue) → slice_get tags.now i ≡ Some t
        → Contains drivers t.name → AreOwners drivers tags.now owners.old i
        → AreOwners drivers tags.now owners.new (i + 1) }
{
    let tag = &tags[i];
    match owners[tag.node as usize] {
        None => {
            owners[tag.node as usize] = Some(i);
            false
        }
        Some(first) => !same_name(&tags[first], tag),
    }
}

/// The offset of the first label of a driver that is on a node of another driver.
pub(crate) fn driven_twice(
    alloc: Global,
    network: &Network,
    drivers: &[Name],
) -> Result<Option<u64>, AllocError>
    ensures { IfOk result (λ found. MatchOption found ((i : ℕ) → ¬ MeetsDriver drivers.now network.now.tags i)
        (IsFirstMeeting drivers.now network.now.tags)) }
{
    let names = names_of(alloc, drivers)?;
    let tags = network.tags.as_slice();
    let mut owners: Vec<Option<usize>> = vec![in alloc; None; network.nodes as usize]?;
    for i in 0..tags.len() {
        let tag = &tags[i];
        if is_driver(&names, tag) && meets_another(tags, i, &mut owners) {
            return Ok(Some(tag.offset));
        }
    }
    Ok(None)
}
