//! From the bytes of a file to its network.

ghost use Rattle.std.specs.Prelude.{IfOk, None};
ghost use Rattle.mp_base.specs.Refuses.{IsJudged};
ghost use Rattle.cif_reader.specs.Refusing.{OfCif};
ghost use Rattle.mask_net.specs.Masks.{IsCif, IsDrawing, IsNetOf, OfDrawing, OfMask};

use crate::laws::one_verdict;
use cif_flat::laws::read_is_well_formed;
use cif_flat::{Flat, flatten};
use cif_form::laws::{scan_is_reading, walk_is_expansion};
use cif_list::Cif;
use cif_reader::read_cif;
use extractor::extract;
use mp_base::{NoMemory, Refusal};
use std::alloc::Global;
use switch_net::Network;

// The commands.
fn commands_in(alloc: Global, bytes: &[u8]) -> Result<Cif, Refusal>
    ensures ok { IfOk result (λ cif. IsCif bytes.now cif) }
    ensures judged { IsJudged (OfCif bytes.now) result }
{
    scan_is_reading();
    read_cif(alloc, bytes)
}

// The commands, for which the bytes are let go.
fn commands_of(alloc: Global, bytes: Vec<u8>) -> Result<Cif, Refusal>
    ensures ok { IfOk result (λ cif. IsCif bytes.items cif) }
    ensures judged { IsJudged (OfCif bytes.items) result }
{
    commands_in(alloc, &bytes)
}

// The shapes and labels of bytes that stay, for which the commands are let go.
fn drawing_in(alloc: Global, bytes: &[u8]) -> Result<Flat, Refusal>
    ensures ok { IfOk result (λ flat. IsDrawing bytes.now flat.shapes flat.labels) }
    ensures judged { IsJudged (OfDrawing bytes.now) result }
{
    read_is_well_formed();
    walk_is_expansion();
    let cif = commands_in(alloc, bytes)?;
    flatten(alloc, &cif)
}

/// The shapes and labels that the bytes of a CIF file draw. The commands are let go.
///
/// # Errors
///
/// The first broken rule of texts, C1 to C5, or else of drawing, F1 to F10; want of memory.
pub fn drawing_of(alloc: Global, bytes: Vec<u8>) -> Result<Flat, Refusal>
    ensures ok { IfOk result (λ flat. IsDrawing bytes.items flat.shapes flat.labels) }
    ensures judged { IsJudged (OfDrawing bytes.items) result }
{
    read_is_well_formed();
    walk_is_expansion();
    let cif = commands_of(alloc, bytes)?;
    flatten(alloc, &cif)
}

/// The network of switches that the bytes of a CIF file draw. They are taken, and let go once they are read, as the
/// commands are once they are drawn.
///
/// Errors: the first broken rule, at the offset of its command or label; those of texts, C1 to C5, come before those of
/// drawing, F1 to F10, and these before those of masks: N1 and N2, then N3, then N5. `NoMemory` is want of memory.
pub fn network_of(alloc: Global, bytes: Vec<u8>) -> Result<Network, Refusal>
    ensures ok { IfOk result (IsNetOf bytes.items) }
    ensures judged { IsJudged (OfMask bytes.items) result }
{
    let flat = drawing_of(alloc, bytes)?;
    extract(alloc, flat.shapes.as_slice(), flat.labels.as_slice())
}

// The network of bytes that stay.
fn network_in(alloc: Global, bytes: &[u8]) -> Result<Network, Refusal>
    ensures ok { IfOk result (IsNetOf bytes.now) }
    ensures judged { IsJudged (OfMask bytes.now) result }
{
    let flat = drawing_in(alloc, bytes)?;
    extract(alloc, flat.shapes.as_slice(), flat.labels.as_slice())
}

/// The network of switches that the bytes of a CIF file draw, of which it is known that they break no rule. They stay.
///
/// # Errors
///
/// Want of memory.
pub fn drawn_network(alloc: Global, bytes: &[u8]) -> Result<Network, NoMemory>
    requires { OfMask bytes.now None }
    ensures { IfOk result (IsNetOf bytes.now) }
{
    one_verdict();
    match network_in(alloc, bytes) {
        Ok(network) => Ok(network),
        Err(Refusal::NoMemory) => Err(NoMemory),
        Err(Refusal::Broken(_)) => unreachable!(),
    }
}
