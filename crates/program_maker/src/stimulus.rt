//! The stimulus of a seed.

ghost use Rattle.std.specs.Prelude.{◌≡◌, ◌++◌, OnOk, IfOk, codes};
ghost use Rattle.std.specs.List.{flat_map, range_with_len};
ghost use Rattle.program_maker.specs.Draws.{after, draw};
ghost use Rattle.program_maker.specs.Texts.{clock, drawn_clock};

use crate::draws::Draws;
use mp_base::push_number;
use std::alloc::{AllocError, Global};

fn push_clock(text: &mut Vec<u8>, a: u64, b: u64) -> Result<(), AllocError>
    ensures { OnOk result (text.new.items ≡ text.old.items ++ clock a b) }
{
    text.extend_from_slice(b"clock a=")?;
    push_number(text, a)?;
    text.extend_from_slice(b" b=")?;
    push_number(text, b)?;
    text.extend_from_slice(b"\n")
}

#[tactic(auto, unfolding(crate::specs::Draws::after))]
fn draw_clock(draws: &mut Draws, text: &mut Vec<u8>) -> Result<(), AllocError>
    ensures state { draws.new.state ≡ after draws.old.state 2 }
    ensures ok { OnOk result (text.new.items
        ≡ text.old.items ++ clock (draw draws.old.state 0 65536) (draw draws.old.state 1 65536)) }
{
    let a = draws.below(65_536);
    let b = draws.below(65_536);
    push_clock(text, a, b)
}

/// The text of a stimulus, drawn.
pub(crate) fn stimulus(alloc: Global, draws: &mut Draws) -> Result<Vec<u8>, AllocError>
    ensures { IfOk result (λ text. text.items
        ≡ codes "clock reset=1\n" ++ flat_map (drawn_clock draws.old.state) (range_with_len 0 64)) }
{
    let mut text = Vec::from_slice(alloc, b"clock reset=1\n")?;
    for _k in 0..64u32 {
        draw_clock(draws, &mut text)?;
    }
    Ok(text)
}
