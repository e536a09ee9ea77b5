//! Links between pieces that touch.

ghost use Rattle.std.specs.Prelude.{◌<◌, length, All, OnOk};
ghost use Rattle.piece_classes.specs.Linking.{Gains, IsTouchLink};

use mask_pieces::Piece;
use mp_base::{List, NoMemory};
use union_find::Pair;

/// Links the pieces of each two tiles that touch, where both conduct or neither does.
pub(crate) fn link_touching(
    links: &mut List<Pair>,
    touching: &[Pair],
    numbers: &[u32],
    pieces: &[Piece],
) -> Result<(), NoMemory>
    requires tiles { All (λ p. (p.a < length numbers.now) × (p.b < length numbers.now)) touching.now }
    requires pieces { All (λ k. k < length pieces.now) numbers.now }
    ensures { OnOk result (Gains links.old links.new
        (IsTouchLink touching.now numbers.now pieces.now (length touching.now))) }
{
    for pair in touching {
        let a = numbers[pair.a as usize];
        let b = numbers[pair.b as usize];
        if pieces[a as usize].part.conducts() == pieces[b as usize].part.conducts() {
            links.push(Pair { a, b })?;
        }
    }
    Ok(())
}
