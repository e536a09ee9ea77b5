//! Numbers up to a cap: what is above it counts as the cap, so that sums and products can't overflow.

ghost use Rattle.std.specs.Prelude.{◌≡◌, ◌+◌, ◌*◌, min};

pub(crate) fn plus(cap: u64, a: u64, b: u64) -> u64
    ensures { result ≡ min cap (a + b) }
{
    cap.min(a.saturating_add(b))
}

pub(crate) fn times(cap: u64, a: u64, b: u64) -> u64
    ensures { result ≡ min cap (a * b) }
{
    cap.min(a.saturating_mul(b))
}
