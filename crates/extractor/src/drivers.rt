//! Drivers, each on a node of its own.

ghost use Rattle.std.specs.Prelude.{◌≡◌, ◌≢◌, ◌+◌, ◌<◌, ℕ, length, IfOk, OnOk};
ghost use Rattle.std.specs.BTreeMap.{get};
ghost use Rattle.std.specs.Ordering.{nat_cmp};
ghost use Rattle.mp_base.specs.PadNames.{is_supply};
ghost use Rattle.extractor.specs.Driving.{AreFirst, FindsMeeting, TellsMeeting};

use mp_base::NoMemory;
use std::alloc::{AllocError, Global};
use std::collections::BTreeMap;
use switch_net::Tag;

// Whether it names power, ground or a phase.
fn is_driver(name: &[u8]) -> bool
    ensures { result ≡ is_supply name.now }
{
    name == b"vdd".as_slice()
        || name == b"gnd".as_slice()
        || name == b"phia".as_slice()
        || name == b"phib".as_slice()
        || name == b"phic".as_slice()
}

// Sets the place of the first driver on a node.
fn note(first_on: &mut BTreeMap<u32, usize>, node: u32, place: usize) -> Result<(), AllocError>
    ensures here { OnOk result (get nat_cmp first_on.new node ≡ Some place) }
    ensures others { OnOk result ((k : ℕ) → k ≢ node → get nat_cmp first_on.new k ≡ get nat_cmp first_on.old k) }
{
    first_on.insert(node, place)?;
    Ok(())
}

// Whether the label at a place is one of a driver on a node that an earlier label names as another driver.
fn meets(
    tags: &[Tag],
    place: usize,
    first_on: &mut BTreeMap<u32, usize>,
) -> Result<bool, AllocError>
    requires inside { place < length tags.now }
    requires firsts { AreFirst (get nat_cmp first_on.old) tags.now place }
    ensures { IfOk result (TellsMeeting (get nat_cmp first_on.new) tags.now place) }
{
    let tag = &tags[place];
    if !is_driver(tag.name.bytes()) {
        return Ok(false);
    }
    if let Some(first) = first_on.get(&tag.node).copied() {
        return Ok(tags[first].name.bytes() != tag.name.bytes());
    }
    note(first_on, tag.node, place)?;
    Ok(false)
}

/// The offset of the first label of a driver on a node that an earlier label names as another driver.
pub(crate) fn first_meeting(alloc: Global, tags: &[Tag]) -> Result<Option<u64>, NoMemory>
    ensures { IfOk result (FindsMeeting tags.now) }
{
    let mut first_on = BTreeMap::new(alloc);
    for place in 0..tags.len() {
        if meets(tags, place, &mut first_on)? {
            return Ok(Some(tags[place].offset));
        }
    }
    Ok(None)
}
