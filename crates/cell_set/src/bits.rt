//! The bits of words.

ghost use Rattle.std.specs.Prelude.{◌≡◌, ◌≢◌, ℕ, ◌<◌, ◌≤◌, IfSome, IfNone};
ghost use Rattle.std.specs.Int.{bit_at};
ghost use Rattle.cell_set.specs.Bits.{IsLowest, IsHighest};

/// The word with a bit set.
pub(crate) fn with(word: u64, place: u32) -> u64
    requires { place < 64 }
    ensures set { bit_at result place ≡ 1 }
    ensures others { (i : ℕ) → i ≢ place → bit_at result i ≡ bit_at word i }
{
    word | (1 << place)
}

/// The word with a bit cleared.
pub(crate) fn without(word: u64, place: u32) -> u64
    requires { place < 64 }
    ensures clear { bit_at result place ≡ 0 }
    ensures less { result ≤ word }
    ensures others { (i : ℕ) → i < 64 → i ≢ place → bit_at result i ≡ bit_at word i }
{
    word & !(1 << place)
}

/// The lowest bit that is set at a place or above it.
pub(crate) fn lowest_from(word: u64, place: u32) -> Option<u32>
    requires { place < 64 }
    ensures some { IfSome result (IsLowest word place) }
    ensures none { IfNone result ((i : ℕ) → place ≤ i → bit_at word i ≡ 0) }
{
    let rest = word & (u64::MAX << place);
    if rest == 0 {
        return None;
    }
    Some(rest.trailing_zeros())
}

/// The highest bit that is set below a place.
pub(crate) fn highest_below(word: u64, place: u32) -> Option<u32>
    requires { place < 64 }
    ensures some { IfSome result (IsHighest word place) }
    ensures none { IfNone result ((i : ℕ) → i < place → bit_at word i ≡ 0) }
{
    highest(word & ((1 << place) - 1))
}

/// The highest bit that is set.
pub(crate) fn highest(word: u64) -> Option<u32>
    ensures some { IfSome result (IsHighest word 64) }
    ensures none { IfNone result (word ≡ 0) }
{
    if word == 0 {
        return None;
    }
    Some(63 - word.leading_zeros())
}
