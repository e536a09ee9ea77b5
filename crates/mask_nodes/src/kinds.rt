//! The kinds of channels.

ghost use Rattle.std.specs.Prelude.{◌≡◌, ◌↔◌, ◌<◌, ℕ, true, false, length, get_or, Some, IfOk, slice_get};
ghost use Rattle.mask_pieces.specs.declared.piece.Piece.{Piece};
ghost use Rattle.mask_nodes.specs.Ends.{HasPart, kind_of};

use mask_pieces::{Part, Piece};
use mp_base::NoMemory;
use std::alloc::Global;
use switch_net::ChannelKind;

/// For each channel whether it has a piece of this part.
pub(crate) fn mark(
    alloc: Global,
    part: Part,
    count: usize,
    pieces: &[Piece],
    channels: &[u32],
) -> Result<Vec<bool>, NoMemory>
    requires numbers { length channels.now ≡ length pieces.now }
    requires within { (k : ℕ) (p : Piece) → slice_get pieces.now k ≡ Some p → p.part ≡ part
        → get_or channels.now k 0 < count }
    ensures as_many { IfOk result (λ v. length v.items ≡ count) }
    ensures each { IfOk result (λ v. (c : ℕ) → c < count
        → (get_or v.items c false ≡ true) ↔ HasPart pieces.now channels.now part (length pieces.now) c) }
{
    let mut marks = vec![in alloc; false; count]?;
    for (i, piece) in pieces.iter().enumerate() {
        if piece.part == part {
            marks[channels[i] as usize] = true;
        }
    }
    Ok(marks)
}

/// The kind of a channel, by whether it has a piece without implant and whether it has one of implant.
pub(crate) fn kind(plain: bool, implanted: bool) -> ChannelKind
    ensures { result ≡ kind_of plain implanted }
{
    match (plain, implanted) {
        (_, false) => ChannelKind::Enhancement,
        (true, true) => ChannelKind::Partial,
        (false, true) => ChannelKind::Depletion,
    }
}
