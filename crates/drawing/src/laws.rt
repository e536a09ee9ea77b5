//! Laws of drawings.

ghost use Rattle.drawing.specs.Carrying.{DrawingsCarryOver};

/// What one network draws, another draws that is the same up to numbering.
pub fn drawings_carry_over()
    ensures { DrawingsCarryOver }
{}
