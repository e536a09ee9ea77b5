//! The nets of a path one after another.

ghost use Rattle.std.specs.Prelude.{◌≡◌, ◌<◌, ◌≤◌, ◌+◌, ◌^◌, All, IfOk};
ghost use Rattle.path_flat.specs.Order.{places_of};

use mp_base::{List, NoMemory};
use path_form::Piece;
use std::alloc::Global;

/// The place of a net: its band and its number there.
#[derive(Clone, Copy)]
pub(crate) struct Place {
    pub band: u32,
    pub net: u32,
}

/// The places of the nets of these pieces, in order.
pub(crate) fn places(alloc: Global, order: &[Piece]) -> Result<List<Place>, NoMemory>
    requires { All (λ piece. piece.first ≤ piece.last → piece.last + 1 < 2 ^ 32) order.now }
    ensures { IfOk result (λ places. places ≡ places_of order.now) }
{
    let mut places = List::new(alloc);
    for piece in order {
        for net in piece.first..piece.last + 1 {
            places.push(Place {
                band: piece.band,
                net,
            })?;
        }
    }
    Ok(places)
}
