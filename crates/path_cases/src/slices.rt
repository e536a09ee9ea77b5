//! The slices of a word operator.

ghost use Rattle.std.specs.Prelude.{◌<◌, ◌≤◌};

use crate::operator::built;
use mp_base::NoMemory;
use organelles::Organelle;
use std::alloc::Global;
use std::io;

// The word that the slices answer, or none where it isn't known.
fn word_of(alloc: Global, op: Organelle, width: u8, x: u64, y: u64) -> Result<Option<u64>, NoMemory>
    requires { width ≤ 64 }
{
    let operator = built(alloc, op)?;
    operator.word(alloc, width, x, y)
}

/// The answer of an operator: its word, and the bit in the top slice.
pub(crate) fn show_slices(
    rt: &HostRuntime,
    op: Organelle,
    width: u8,
    x: u64,
    y: u64,
) -> io::Result<()>
    requires some { 0 < width }
    requires narrow { width ≤ 64 }
{
    match word_of(rt.alloc(), op, width, x, y) {
        Ok(Some(word)) => {
            let top = word >> (width - 1);
            println!(rt;
                "{op:?} of {x} and {y} in {width} slices is {word}, {top} in the top slice"
            )
        }
        Ok(None) => println!(rt; "{op:?} of {x} and {y} in {width} slices is not known"),
        Err(_) => println!(rt; "not enough memory"),
    }
}
