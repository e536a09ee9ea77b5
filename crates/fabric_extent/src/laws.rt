//! Laws: a call of one does nothing, and tells the caller's proof what it ensures.

ghost use Rattle.fabric_extent.specs.Bounds.{FabricsAreBetween, SmallFabrics};

/// What a fabric draws lies between the left edge of the ground trunk and the right edge of the power trunk, and is as
/// high as its bands.
pub fn fabrics_are_between()
    ensures { FabricsAreBetween }
{}

/// The extent of a fabric whose columns and rows are bounded by a cost.
pub fn small_fabrics_are_small()
    ensures { SmallFabrics }
{}
