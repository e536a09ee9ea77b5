//! The flat net of a data path.

ghost use Rattle.std.specs.Prelude.{◌≡◌, ℕ, [], All, IfOk, OnOk, length};
ghost use Rattle.nor_net.specs.Elements.{Spot};
ghost use Rattle.path_form.specs.Flat.{HasNoOtherInputs, IsFewFlat, IsFlat};
ghost use Rattle.path_flat.specs.Numbers.{HasShape, number_of};
ghost use Rattle.path_sources.specs.Sources.{parts_of};
ghost use Rattle.path_flat.specs.Order.{places_of};
ghost use Rattle.path_flat.specs.Numbered.{IsFew, IsNumbered, IsNumberedTo, IsWhole, total};
ghost use Rattle.path_flat.specs.Rows.{AreBelow, AreBits, IsWholeWith};
ghost use Rattle.path_sources.specs.Sources.{path_source, source_of};

use crate::adding::add;
use crate::feeding::feed;
use crate::numbers::Numbers;
use crate::places::{Place, places};
use crate::rows::rows_of;
use mp_base::{List, NoMemory};
use nor_net::{Net, NetId};
use path_form::{DataPath, Flattened};
use path_sources::Sources;
use std::alloc::Global;

// The net of a band.
fn net_of(path: &DataPath, band: u32) -> &Net
    ensures { result.now ≡ parts_of path.now band }
{
    if band == 0 {
        &path.control
    } else {
        &path.slices.net
    }
}

// Gives each net of the path its number and what stands for it; latches are not fed yet.
fn number_each(
    alloc: Global,
    path: &DataPath,
    places: &[Place],
    sources: &Sources,
    numbers: &mut Numbers,
    net: &mut Net,
) -> Result<(), NoMemory>
    requires places { places.now ≡ places_of path.now.order }
    requires empty { net.old ≡ [] }
    requires sources { (band n : ℕ) → source_of sources.now band n ≡ path_source path.now band n }
    requires shape { HasShape path.now.width (length path.now.control) (length path.now.slices.net) numbers.old }
    ensures numbered { OnOk result
        (IsNumberedTo path.now (total path.now.order) 0 net.new (number_of numbers.new)) }
    ensures few { OnOk result (IsFew path.now net.new) }
{
    for place in places {
        let own = net_of(path, place.band);
        let source = sources.source(place.band, place.net);
        let id = add(alloc, own, path.width, *place, source, numbers, net)?;
        numbers.set(*place, id);
    }
    Ok(())
}

// The same, with what gives the inputs of the path their values.
fn number_places(
    alloc: Global,
    path: &DataPath,
    places: &[Place],
    numbers: &mut Numbers,
    net: &mut Net,
) -> Result<(), NoMemory>
    requires places { places.now ≡ places_of path.now.order }
    requires empty { net.old ≡ [] }
    requires shape { HasShape path.now.width (length path.now.control) (length path.now.slices.net) numbers.old }
    ensures numbered { OnOk result
        (IsNumberedTo path.now (total path.now.order) 0 net.new (number_of numbers.new)) }
    ensures few { OnOk result (IsFew path.now net.new) }
{
    let sources = Sources::new(alloc, path)?;
    number_each(alloc, path, places, &sources, numbers, net)
}

// The numbers that the nets of the path have then.
fn number_all(
    alloc: Global,
    path: &DataPath,
    places: &[Place],
    net: &mut Net,
) -> Result<Numbers, NoMemory>
    requires places { places.now ≡ places_of path.now.order }
    requires empty { net.old ≡ [] }
    ensures { IfOk result (λ numbers. IsNumbered path.now net.new (number_of numbers)) }
{
    let mut numbers = Numbers::new(alloc, path.width, path.control.len(), path.slices.net.len())?;
    number_places(alloc, path, places, &mut numbers, net)?;
    Ok(numbers)
}

// Feeds each latch.
fn feed_all(path: &DataPath, places: &[Place], numbers: &Numbers, net: &mut Net)
    requires places { places.now ≡ places_of path.now.order }
    requires numbered { IsNumbered path.now net.old (number_of numbers.now) }
    ensures { IsWhole path.now net.new (number_of numbers.now) }
{
    for place in places {
        let own = net_of(path, place.band);
        feed(own, *place, numbers, net);
    }
}

// The numbers of the nets of a path in its flat net, whose latches are fed.
fn number_whole(alloc: Global, path: &DataPath, net: &mut Net) -> Result<Numbers, NoMemory>
    requires { net.old ≡ [] }
    ensures { IfOk result (λ numbers. IsWhole path.now net.new (number_of numbers)) }
{
    let places = places(alloc, path.order.as_slice())?;
    let numbers = number_all(alloc, path, places.as_slice(), net)?;
    feed_all(path, places.as_slice(), &numbers, net);
    Ok(numbers)
}

// The numbers of the bits of all input pads, and of all output pads.
fn pad_rows(
    alloc: Global,
    path: &DataPath,
    numbers: &Numbers,
) -> Result<(List<List<NetId>>, List<List<NetId>>), NoMemory>
    ensures { IfOk result (λ rows. AreBits path.now (number_of numbers.now) rows.0 rows.1) }
{
    let inputs = rows_of(
        alloc,
        numbers,
        path.pads.inputs.as_slice(),
        path.inputs.as_slice(),
    )?;
    let outputs = rows_of(
        alloc,
        numbers,
        path.pads.outputs.as_slice(),
        path.outputs.as_slice(),
    )?;
    Ok((inputs, outputs))
}

// Makes the flat net of a path, and gives the numbers of the bits of its pads.
fn number_pads(
    alloc: Global,
    path: &DataPath,
    net: &mut Net,
) -> Result<(List<List<NetId>>, List<List<NetId>>), NoMemory>
    requires { net.old ≡ [] }
    ensures { IfOk result (λ rows. IsWholeWith path.now net.new rows.0 rows.1) }
{
    let numbers = number_whole(alloc, path, net)?;
    pad_rows(alloc, path, &numbers)
}

/// One net for the control and all slices of a data path, numbered in the order of the path, with the nets of the
/// bits of each pad. A net that is joined to another has its number, and one that is set to 0 is a gate on a gate
/// without inputs.
///
/// # Errors
///
/// `NoMemory`.
pub fn flatten(alloc: Global, path: &DataPath) -> Result<Flattened, NoMemory>
    ensures flat { IfOk result (IsFlat path.now) }
    ensures others { IfOk result HasNoOtherInputs }
    ensures few { IfOk result (IsFewFlat path.now) }
    ensures inputs { IfOk result (λ flat. All (AreBelow (length flat.net)) flat.inputs) }
    ensures outputs { IfOk result (λ flat. All (AreBelow (length flat.net)) flat.outputs) }
{
    let mut net = Net::new(alloc);
    let rows = number_pads(alloc, path, &mut net)?;
    Ok(Flattened {
        net,
        inputs: rows.0,
        outputs: rows.1,
    })
}
