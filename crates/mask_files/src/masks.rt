//! Masks that are read and judged.

ghost use Rattle.std.specs.Prelude.{◌≡◌, IfOk, IfSome};
ghost use Rattle.outside.specs.Outside.{Keeps, bytes_of};
ghost use Rattle.mask_net.specs.Masks.{IsDrawing, IsNetOf};
ghost use Rattle.outcome.specs.Halt.{HasReason};
ghost use Rattle.mask_files.specs.Faults.{DrawingFault, MaskFault};

use crate::limits::MASK_LIMIT;
use cif_flat::Flat;
use mask_net::{drawing_of, network_of};
use outcome::{Halt, read_text};
use outside::Depot;
use std::alloc::Global;
use switch_net::Network;

/// Reads the network of a file of masks that breaks no rule.
///
/// # Errors
///
/// A read fault, the first broken rule of L1, C, F, N1, N2, N3 and N5, or want of memory.
pub fn read_network<D: Depot>(alloc: Global, depot: &mut D, name: &str) -> Result<Network, Halt>
    ensures held { Keeps (D.held depot.old) (D.held depot.new) }
    ensures drawn { IfOk result (λ net. IfSome (D.held depot.new) (λ files. IsNetOf (bytes_of files name.now) net)) }
    ensures reason { HasReason (MaskFault name.now) (D.held depot.new)
        (D.read_faults depot.old) (D.read_faults depot.new) result }
    ensures writes { D.write_faults depot.new ≡ D.write_faults depot.old }
{
    let bytes = read_text(alloc, depot, name, MASK_LIMIT)?;
    Ok(network_of(alloc, bytes)?)
}

/// Reads the shapes and labels of a file that breaks no rule of texts or of drawing, whatever its masks are.
///
/// # Errors
///
/// A read fault, the first broken rule of L1, C and F, or want of memory.
pub fn read_drawing<D: Depot>(alloc: Global, depot: &mut D, name: &str) -> Result<Flat, Halt>
    ensures held { Keeps (D.held depot.old) (D.held depot.new) }
    ensures drawn { IfOk result (λ flat. IfSome (D.held depot.new)
        (λ files. IsDrawing (bytes_of files name.now) flat.shapes flat.labels)) }
    ensures reason { HasReason (DrawingFault name.now) (D.held depot.new)
        (D.read_faults depot.old) (D.read_faults depot.new) result }
    ensures writes { D.write_faults depot.new ≡ D.write_faults depot.old }
{
    let text = read_text(alloc, depot, name, MASK_LIMIT)?;
    Ok(drawing_of(alloc, text)?)
}
