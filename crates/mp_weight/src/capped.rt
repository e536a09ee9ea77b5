//! Numbers up to a cap: what is above it counts as the cap, so that sums and products can't overflow.

ghost use Rattle.std.specs.Prelude.{◌≡◌, ◌+◌, ◌*◌, min};

pub fn plus(cap: u64, a: u64, b: u64) -> u64
    ensures { result ≡ min cap (a + b) }
{
    cap.min(a.saturating_add(b))
}

pub fn times(cap: u64, a: u64, b: u64) -> u64
    ensures { result ≡ min cap (a * b) }
{
    cap.min(a.saturating_mul(b))
}

/// A base and as much again for each of some things.
pub fn linear(cap: u64, base: u64, each: u64, count: u64) -> u64
    ensures { result ≡ min cap (base + each * count) }
{
    plus(cap, base, times(cap, each, count))
}
