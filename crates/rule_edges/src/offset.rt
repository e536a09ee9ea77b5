//! Coordinates from 0 on.

ghost use Rattle.std.specs.Prelude.{◌≡◌};
ghost use Rattle.lam_geom.specs.Moves.{IsNear};
ghost use Rattle.rule_edges.specs.Edges.{offset};

// More than 2^40 half-units, and a multiple of a lambda.
const FAR: i64 = 1_100_000_000_000;

/// How far a coordinate is from one that is before all that are near the origin.
pub(crate) fn offset(coordinate: i64) -> u64
    requires { IsNear coordinate }
    ensures { result ≡ offset coordinate }
{
    (coordinate + FAR).unsigned_abs()
}
