//! The settings of a clock.

ghost use Rattle.std.specs.Prelude.{◌≡◌};
ghost use Rattle.clock_run.specs.Settings.{phases_of, levels};

use mp_base::Trit;

/// Which phase is at 1.
#[derive(Clone, Copy, PartialEq, Eq, Debug)]
pub(crate) enum Setting {
    Quiet,
    PhiA,
    PhiB,
    PhiC,
}

impl Setting {
    /// The values of vdd, gnd, phia, phib and phic.
    pub(crate) fn levels(self) -> [Trit; 5]
        ensures { result ≡ levels (phases_of self) }
    {
        match self {
            Setting::Quiet => [Trit::One, Trit::Zero, Trit::Zero, Trit::Zero, Trit::Zero],
            Setting::PhiA => [Trit::One, Trit::Zero, Trit::One, Trit::Zero, Trit::Zero],
            Setting::PhiB => [Trit::One, Trit::Zero, Trit::Zero, Trit::One, Trit::Zero],
            Setting::PhiC => [Trit::One, Trit::Zero, Trit::Zero, Trit::Zero, Trit::One],
        }
    }
}
