//! A part that remembers words.

ghost use Rattle.std.specs.Prelude.{◌≡◌, replicate, ◌∷◌};

use board::Part;

/// A memory of 256 words, with an address. It drives the word at the address. The lowest 8 bits that it sees are the
/// next address; where bit 8 is 1, the bits above it are first stored at the address before.
#[derive(Drop)]
pub struct Memory {
    pub address: u8,
    pub words: [u64; 256],
}

impl Memory {
    /// A memory of zeros, at address 0.
    pub fn new() -> Memory
        ensures address { result.address ≡ 0 }
        ensures words { result.words ≡ replicate 256 0 }
    {
        Memory {
            address: 0,
            words: [0; 256],
        }
    }
}

impl Part for Memory {
    ghost use Rattle.board_parts.specs.Memory.{word_in, remembered};

    ghost state = { λ m. m.address ∷ m.words };

    ghost driven_in = { word_in };

    ghost after_seeing = { remembered };

    fn drives(&self) -> u64 {
        self.words[self.address as usize]
    }

    fn clock(&mut self, seen: u64) {
        if seen / 256 % 2 == 1 {
            self.words[self.address as usize] = seen / 512;
        }
        self.address = (seen % 256) as u8;
    }
}
