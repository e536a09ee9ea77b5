//! Laws of rows: a call of one does nothing, and tells the caller's proof what it ensures.

ghost use Rattle.track_laws.specs.Fewest.{FewestRows};

/// No other rows in which lengthened intervals share no column are fewer.
pub fn rows_are_fewest()
    ensures { FewestRows }
{}
