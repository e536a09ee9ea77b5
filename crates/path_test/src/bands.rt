//! Whether all nets become what they may.

ghost use Rattle.std.specs.Prelude.{◌≡◌, ◌<◌, ◌==◌, ℕ, IfOk, IfSome, IsTrue, length, slice_get};
ghost use Rattle.path_sources.specs.Sources.{parts_of, path_source, source_of};
ghost use Rattle.path_reduce.specs.Images.{IsReduction};
ghost use Rattle.path_reduce.specs.Tables.{becomes_at, images_of, table_of};
ghost use Rattle.path_test.specs.Becoming.{PartBecomes};
ghost use Rattle.path_test.specs.Testing.{BandBecomes, PadStays, PadsStay, PartsBecome};

use crate::gates::{becomes_at, gate_becomes, is_net, latch_becomes};
use crate::inputs::{input_becomes, is_source};
use mp_base::{NoMemory, Pad};
use nor_net::{Net, NetId, NetKind};
use path_form::DataPath;
use path_reduce::{Becomes, Images};
use path_sources::{Source, Sources};
use std::alloc::Global;

// The table of a band.
fn table_of(images: &Images, band: u32) -> &[Becomes]
    ensures { result.now ≡ table_of images.now band }
{
    if band == 0 {
        images.control.as_slice()
    } else {
        images.slices.as_slice()
    }
}

// The net of a band.
fn net_of(path: &DataPath, band: u32) -> &Net
    ensures { result.now ≡ parts_of path.now band }
{
    if band == 0 {
        &path.control
    } else {
        &path.slices.net
    }
}

// Whether a net with this source, if it is an input, may become this.
fn net_becomes(
    images: &Images,
    band: u32,
    own: &Net,
    id: NetId,
    source: Source,
    net: &Net,
    sources: &Sources,
) -> bool
    requires { id.0 < length own.now }
    ensures { IsTrue result → IfSome (slice_get own.now id.0) (λ part.
        PartBecomes images.now (table_of images.now band) net.now (source_of sources.now band) source part
        (becomes_at (table_of images.now band) id.0)) }
{
    let table = table_of(images, band);
    let becomes = becomes_at(table, id);
    match own.kind(id) {
        NetKind::Input => input_becomes(images, source, band, net, sources, becomes),
        NetKind::Gate => gate_becomes(table, own.gate_inputs(id), net, becomes),
        NetKind::Latch {
            phase,
            source: Some(from),
        } => latch_becomes(table, phase, from, net, becomes),
        NetKind::Latch { source: None, .. } => true,
    }
}

// Whether all nets of a band may become what the table says.
fn parts_become(
    width: u8,
    images: &Images,
    band: u32,
    own: &Net,
    own_sources: &Sources,
    net: &Net,
    sources: &Sources,
) -> bool
    ensures { IsTrue result → PartsBecome width (band == 0) images.now (table_of images.now band) own.now net.now
        (source_of own_sources.now band) (source_of sources.now band) }
{
    if (own.len() as usize) < table_of(images, band).len() {
        return false;
    }
    for id in 0..own.len() {
        let source = own_sources.source(band, id);
        if !is_source(width, band == 0, source)
            || !net_becomes(images, band, own, NetId(id), source, net, sources)
        {
            return false;
        }
    }
    true
}

// Whether all nets of a band of a path may become what the table says.
fn band_becomes(
    images: &Images,
    band: u32,
    path: &DataPath,
    own_sources: &Sources,
    reduced: &DataPath,
    sources: &Sources,
) -> bool
    requires own { (n : ℕ) → source_of own_sources.now band n ≡ path_source path.now band n }
    requires other { (n : ℕ) → source_of sources.now band n ≡ path_source reduced.now band n }
    ensures { IsTrue result → BandBecomes images.now band path.now reduced.now }
{
    let own = net_of(path, band);
    let net = net_of(reduced, band);
    parts_become(path.width, images, band, own, own_sources, net, sources)
}

// Whether all nets of both bands may become what the tables say.
fn bands_become(
    alloc: Global,
    path: &DataPath,
    reduced: &DataPath,
    images: &Images,
) -> Result<bool, NoMemory>
    ensures { IfOk result (λ are. IsTrue are → BandBecomes images.now 0 path.now reduced.now
        × BandBecomes images.now 1 path.now reduced.now) }
{
    let own = Sources::new(alloc, path)?;
    let sources = Sources::new(alloc, reduced)?;
    let control = band_becomes(images, 0, path, &own, reduced, &sources);
    Ok(control && band_becomes(images, 1, path, &own, reduced, &sources))
}

// Whether the net of a pad becomes that of the same pad.
fn pad_stays(images: &Images, pads: &[Pad], ids: &[NetId], others: &[NetId], index: usize) -> bool
    ensures { IsTrue result → PadStays images.now pads.now ids.now others.now index }
{
    match (pads.get(index), ids.get(index), others.get(index)) {
        (Some(pad), Some(id), Some(other)) => {
            let table = if pad.width == 0 {
                images.control.as_slice()
            } else {
                images.slices.as_slice()
            };
            is_net(becomes_at(table, *id), *other)
        }
        _ => false,
    }
}

// Whether the nets of these pads become those of the same pads.
fn pads_stay(images: &Images, pads: &[Pad], ids: &[NetId], others: &[NetId]) -> bool
    ensures { IsTrue result → PadsStay images.now pads.now ids.now others.now }
{
    for index in 0..pads.len() {
        if !pad_stays(images, pads, ids, others, index) {
            return false;
        }
    }
    true
}

// Whether the nets of input pads stay.
fn inputs_stay(images: &Images, path: &DataPath, reduced: &DataPath) -> bool
    ensures { IsTrue result → PadsStay images.now (path.now.pads).inputs path.now.inputs reduced.now.inputs }
{
    let pads = path.pads.inputs.as_slice();
    pads_stay(
        images,
        pads,
        path.inputs.as_slice(),
        reduced.inputs.as_slice(),
    )
}

// Whether those of output pads do.
fn outputs_stay(images: &Images, path: &DataPath, reduced: &DataPath) -> bool
    ensures { IsTrue result → PadsStay images.now (path.now.pads).outputs path.now.outputs reduced.now.outputs }
{
    let pads = path.pads.outputs.as_slice();
    pads_stay(
        images,
        pads,
        path.outputs.as_slice(),
        reduced.outputs.as_slice(),
    )
}

// Whether all do.
fn all_pads_stay(images: &Images, path: &DataPath, reduced: &DataPath) -> bool
    ensures { IsTrue result → PadsStay images.now (path.now.pads).inputs path.now.inputs reduced.now.inputs
        × PadsStay images.now (path.now.pads).outputs path.now.outputs reduced.now.outputs }
{
    inputs_stay(images, path, reduced) && outputs_stay(images, path, reduced)
}

/// Whether a path is another one with fewer nets, which become what these tables say. The two have the same pads and
/// words of one length. Not all that are so pass.
///
/// # Errors
///
/// `NoMemory`.
pub fn is_reduction(
    alloc: Global,
    path: &DataPath,
    reduced: &DataPath,
    images: &Images,
) -> Result<bool, NoMemory>
    requires width { reduced.now.width ≡ path.now.width }
    requires pads { reduced.now.pads ≡ path.now.pads }
    ensures { IfOk result
        (λ is. IsTrue is → IsReduction path.now reduced.now (images_of path.now.width images.now)) }
{
    let pads = all_pads_stay(images, path, reduced);
    let bands = bands_become(alloc, path, reduced, images)?;
    Ok(pads && bands)
}
