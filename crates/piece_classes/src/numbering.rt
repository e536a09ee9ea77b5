//! Numbers of classes, in the order of their least pieces.

ghost use Rattle.std.specs.Prelude.{◌≡◌, ℕ, ◌<◌, ◌≤◌, length, get_or, IfOk, ◌++◌, ◌∷◌, []};
ghost use Rattle.piece_classes.specs.Numbers.{AreRoots, AreNumbers, Conducts};

use mask_pieces::Piece;
use mp_base::{List, NoMemory};
use std::alloc::Global;

/// The least piece of each class, in order, and the number of each piece's class.
#[derive(Drop)]
pub struct Classes {
    pub roots: List<u32>,
    pub numbers: List<u32>,
}

/// Numbers the classes of the pieces that conduct, or of those that don't, by the least of each one's class.
pub(crate) fn number(
    alloc: Global,
    least: &[u32],
    pieces: &[Piece],
    conducting: bool,
) -> Result<Classes, NoMemory>
    requires as_many { length least.now ≡ length pieces.now }
    requires below { (k : ℕ) → k < length least.now → get_or least.now k 0 ≤ k }
    requires stay { (k : ℕ) → k < length least.now → Conducts pieces.now conducting k
        → Conducts pieces.now conducting (get_or least.now k 0) }
    requires still { (k : ℕ) → k < length least.now → get_or least.now (get_or least.now k 0) 0 ≡ get_or least.now k 0 }
    ensures roots { IfOk result (λ c. AreRoots (Conducts pieces.now conducting) least.now (length least.now) c.roots) }
    ensures numbers { IfOk result
        (λ c. AreNumbers (Conducts pieces.now conducting) least.now (length least.now) c.roots c.numbers) }
{
    let mut classes = Classes {
        roots: List::new(alloc),
        numbers: List::from_vec(Vec::with_capacity(alloc, pieces.len())?),
    };
    for (i, piece) in pieces.iter().enumerate() {
        let number = if piece.part.conducts() != conducting {
            0
        } else if least[i] as usize == i {
            classes.add_root(least[i])?
        } else {
            *classes.numbers.at(least[i])
        };
        classes.numbers.push(number)?;
    }
    Ok(classes)
}

impl Classes {
    // Adds a class, and gives its number.
    fn add_root(&mut self, root: u32) -> Result<u32, NoMemory>
        ensures { IfOk result (λ n. (n ≡ length self.old.roots)
            × (self.new ≡ record self.old { roots = self.old.roots ++ root ∷ [] })) }
    {
        let Ok(number) = u32::try_from(self.roots.len()) else {
            return Err(NoMemory);
        };
        self.roots.push(root)?;
        Ok(number)
    }
}
