//! Bits that may be unknown, and words.

ghost use Rattle.std.specs.Prelude.{◌≡◌, ◌+◌, ◌-◌, ◌%◌, ◌^◌, ◌<◌, ◌≤◌, ◌==◌, bit_and};
ghost use Rattle.std.specs.Int.{bit_at};

/// The value of a node: 0, 1 or unknown.
#[derive(Clone, Copy, PartialEq, Eq, Debug)]
pub enum Trit {
    Zero,
    One,
    X,
}

impl Trit {
    ghost use Rattle.mp_base.specs.Meet.{meet};

    /// The value where both agree, else X.
    pub fn meet(self, other: Trit) -> Trit
        ensures { result ≡ meet self other }
    {
        match (self, other) {
            (Trit::Zero, Trit::Zero) => Trit::Zero,
            (Trit::One, Trit::One) => Trit::One,
            _ => Trit::X,
        }
    }
}

/// A word of 1 to 64 bits.
#[derive(Clone, Copy, PartialEq, Eq, Debug)]
pub struct Word {
    pub bits: u64,
    pub width: u8,
    pub ghost some: { 0 < width },
    pub ghost narrow: { width ≤ 64 },
    pub ghost fits: { bits < 2 ^ width },
}

// The number of words of a width.
pub(crate) fn modulus(width: u8) -> u128
    requires { width ≤ 64 }
    ensures { result ≡ 2 ^ width }
{
    1u128 << width
}

impl Word {
    /// The bit of weight 2^k.
    pub fn bit(self, k: u8) -> bool
        requires { k < self.width }
        ensures { result ≡ (bit_at self.bits k == 1) }
    {
        (self.bits >> k) & 1 == 1
    }

    /// The sum modulo 2^width.
    pub fn plus(self, other: Word) -> Word
        requires { other.width ≡ self.width }
        ensures bits { result.bits ≡ (self.bits + other.bits) % 2 ^ self.width }
        ensures width { result.width ≡ self.width }
    {
        let sum = (self.bits as u128 + other.bits as u128) % modulus(self.width);
        Word {
            bits: sum as u64,
            width: self.width,
        }
    }

    /// The difference modulo 2^width.
    pub fn minus(self, other: Word) -> Word
        requires { other.width ≡ self.width }
        ensures bits { result.bits ≡ (self.bits + 2 ^ self.width - other.bits) % 2 ^ self.width }
        ensures width { result.width ≡ self.width }
    {
        let modulus = modulus(self.width);
        let difference = (self.bits as u128 + modulus - other.bits as u128) % modulus;
        Word {
            bits: difference as u64,
            width: self.width,
        }
    }
}

/// The bits of a pad. A bit of `bits` counts where the same bit of `known` is 1, and is 0 elsewhere.
#[derive(Clone, Copy, PartialEq, Eq, Debug)]
pub struct TritWord {
    pub known: u64,
    pub bits: u64,
    pub ghost masked: { bit_and bits known ≡ bits },
}
