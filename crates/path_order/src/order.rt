//! The pieces of a path.

ghost use Rattle.std.specs.Prelude.{◌≡◌, ◌<◌, ◌≤◌, ◌^◌, ◌++◌, All, IfOk, OnOk};
ghost use Rattle.path_order.specs.Order.{order_from, piece, pieces_of_block, slice_pieces, start};

use mp_base::{List, NoMemory};
use path_form::Piece;
use std::alloc::Global;

/// How many nets of each slice, and how many of the control, stand before a point of the order.
#[derive(Clone, Copy, PartialEq, Eq, Debug)]
pub struct Mark {
    pub slices: u32,
    pub control: u32,
}

// Adds the nets from first to before the end of a band, if there are any.
fn add_piece(order: &mut List<Piece>, band: u32, first: u32, end: u32) -> Result<(), NoMemory>
    ensures { OnOk result (order.new ≡ order.old ++ piece band first end) }
{
    if first < end {
        let last = end - 1;
        if order.push(Piece { band, first, last }).is_err() {
            return Err(NoMemory);
        }
    }
    Ok(())
}

// Adds what stands between two marks: the nets of each slice, and then those of the control.
fn add_block(order: &mut List<Piece>, width: u8, from: Mark, to: Mark) -> Result<(), NoMemory>
    ensures { OnOk result (order.new ≡ order.old ++ pieces_of_block width from to) }
{
    for slice in 0..width {
        add_piece(order, slice as u32 + 1, from.slices, to.slices)?;
    }
    add_piece(order, 0, from.control, to.control)
}

/// The nets from the first to the last mark: between two marks those of each slice in turn, and then those of the
/// control.
///
/// # Errors
///
/// `NoMemory`.
pub fn order_of(alloc: Global, width: u8, marks: &[Mark]) -> Result<List<Piece>, NoMemory>
    ensures { IfOk result (λ order. order ≡ order_from width start marks.now) }
{
    let mut order = List::new(alloc);
    let mut from = Mark {
        slices: 0,
        control: 0,
    };
    for to in marks {
        add_block(&mut order, width, from, *to)?;
        from = *to;
    }
    Ok(order)
}
