//! A law of slices: a call of it does nothing, and tells the caller's proof what it ensures.

ghost use Rattle.organelles.specs.Computing.{OperatorsCompute};

/// In any number of slices the nets of an operator have its value.
pub fn slices_compute()
    ensures { OperatorsCompute }
{}
