//! The earliest of some places.

ghost use Rattle.std.specs.Prelude.{◌≡◌};
ghost use Rattle.mp_rules.specs.Breaking.{earlier, earlier_of};

use mp_base::Place;

/// The earlier of what was found and another place; what was found stays where both have one offset.
pub fn earlier(found: Option<Place>, at: Place) -> Option<Place>
    ensures { result ≡ earlier found at }
{
    match found {
        Some(place) if place.offset <= at.offset => found,
        _ => Some(at),
    }
}

/// The earlier of two places that were found.
pub fn earlier_of(found: Option<Place>, other: Option<Place>) -> Option<Place>
    ensures { result ≡ earlier_of found other }
{
    match other {
        Some(at) => earlier(found, at),
        None => found,
    }
}
