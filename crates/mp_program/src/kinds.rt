//! What a definition is.

use crate::program::{Def, Way, What};

impl What {
    ghost use Rattle.std.specs.Prelude.{◌≡◌};
    ghost use Rattle.mp_program.specs.Names.{is_driven, is_input, is_output, is_stored, is_supply};

    /// Whether this is an input port or signal.
    pub fn is_input(self) -> bool
        ensures { result ≡ is_input self }
    {
        matches!(self, What::Port(Way::Input) | What::Signal(Way::Input))
    }

    /// Whether this is an output port or signal.
    pub fn is_output(self) -> bool
        ensures { result ≡ is_output self }
    {
        matches!(self, What::Port(Way::Output) | What::Signal(Way::Output))
    }

    /// Whether this is an output or internal port or signal: forms set its value in each clock.
    pub fn is_driven(self) -> bool
        ensures { result ≡ is_driven self }
    {
        matches!(
            self,
            What::Port(Way::Output | Way::Internal) | What::Signal(Way::Output | Way::Internal)
        )
    }

    /// Whether this is a register or flag: its value lasts to the next clock.
    pub fn is_stored(self) -> bool
        ensures { result ≡ is_stored self }
    {
        matches!(self, What::Register | What::Flag)
    }

    /// Whether this is power, ground or a phase of the clock.
    pub fn is_supply(self) -> bool
        ensures { result ≡ is_supply self }
    {
        matches!(
            self,
            What::Power | What::Ground | What::Phia | What::Phib | What::Phic
        )
    }
}

impl Def {
    ghost use Rattle.std.specs.Prelude.{◌≡◌};
    ghost use Rattle.mp_program.specs.Names.{is_reset};

    /// Whether this is the signal input `reset`.
    pub fn is_reset(&self) -> bool
        ensures { result ≡ is_reset self.now }
    {
        self.name.bytes() == b"reset".as_slice() && matches!(self.what, What::Signal(Way::Input))
    }
}
