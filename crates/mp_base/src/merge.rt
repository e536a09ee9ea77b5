//! What several forms write at once.

ghost use Rattle.std.specs.Prelude.{◌≡◌};
ghost use Rattle.mp_base.specs.Merge.{join};

/// The bitwise OR of what is written, where something is.
pub fn join(first: Option<u64>, second: Option<u64>) -> Option<u64>
    ensures { result ≡ join first second }
{
    match (first, second) {
        (None, other) => other,
        (some, None) => some,
        (Some(a), Some(b)) => Some(a | b),
    }
}
