//! Laws of the commands of chips, and of the chips that have commands. A call of one does nothing.

ghost use Rattle.std.specs.Prelude.{List};
ghost use Rattle.lam_geom.specs.declared.rect.Rect.{Rect};
ghost use Rattle.fabric.specs.declared.chip.ChipLabel.{ChipLabel};
ghost use Rattle.slice_symbols.specs.declared.symbols.Symbol.{Symbol};
ghost use Rattle.cif_emit.specs.Emittable.{FabricsAreOnGrid};
ghost use Rattle.cif_emit.specs.Emitted.{AreSymbolsFor, CommandsAreUnique, IsEmitted};
ghost use Rattle.cif_emit.specs.Commands.{chip_commands};

use cif_form::laws;
use slice_symbols::laws::symbols_are_unique;

/// The commands of a chip's symbols draw it.
pub(crate) fn commands_draw_the_chip()
    ensures { (rects : List Rect) (labels : List ChipLabel) (symbols : List Symbol)
        → AreSymbolsFor rects labels symbols → IsEmitted rects labels (chip_commands symbols labels) }
{
    laws::walk_is_unique();
    laws::walk_is_counted();
}

/// A fabric that is at most 4,294,967 lambda wide and high, at 20 lambda for a column, draws on whole lambda that are
/// small: its rectangles meet the condition of [`emit`](crate::emit).
pub fn fabrics_are_on_grid()
    ensures { FabricsAreOnGrid }
{}

/// The commands of a chip are determined by it: what [`emit`](crate::emit) gives is what [`emit_to`](crate::emit_to)
/// writes the text of.
pub fn commands_are_unique()
    ensures { CommandsAreUnique }
{
    symbols_are_unique();
}
