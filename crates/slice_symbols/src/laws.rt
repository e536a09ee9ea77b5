//! Laws of symbols. A call of one does nothing.

ghost use Rattle.slice_symbols.specs.Drawn.{SymbolsAreUnique, SymbolsExist};

/// The same rectangles and bands have one list of symbols.
pub fn symbols_are_unique()
    ensures { SymbolsAreUnique }
{}

/// Usable bands, of which there is one, and rectangles that are near have symbols.
pub fn symbols_exist()
    ensures { SymbolsExist }
{}
