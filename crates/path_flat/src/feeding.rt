//! Latches of the flat net take their data once all nets have numbers.

ghost use Rattle.std.specs.Prelude.{◌≡◌, ◌<◌, IfSome, length, slice_get};
ghost use Rattle.path_flat.specs.Feeding.{IsFedAt, MayTakeAt};
ghost use Rattle.path_flat.specs.Numbers.{number_of};

use crate::numbers::Numbers;
use crate::places::Place;
use nor_net::{Net, NetId, NetKind};

/// Gives what stands for the net at a place its data, where that is a latch.
pub(crate) fn feed(own: &Net, place: Place, numbers: &Numbers, net: &mut Net)
    requires there { place.net < length own.now }
    requires may { IfSome (slice_get own.now place.net) (MayTakeAt (number_of numbers.now) place net.old) }
    ensures { IfSome (slice_get own.now place.net) (IsFedAt (number_of numbers.now) place net.old net.new) }
{
    if let NetKind::Latch {
        source: Some(source),
        ..
    } = own.kind(NetId(place.net))
    {
        net.feed(
            numbers.at(place.band, place.net),
            numbers.at(place.band, source.0),
        );
    }
}
