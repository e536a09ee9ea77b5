//! Laws of nets: a call of one does nothing, and tells the caller's proof what it ensures.

ghost use Rattle.nor_net.specs.Laws.{BitsAreTold, OneInputDecides, SettledExists, SettledOnce, TraceExists};
ghost use Rattle.nor_net.specs.Laws.{TraceLoosens, TraceOnce};
ghost use Rattle.nor_net.specs.Machine.{ClockSteps, ResetClears};

/// Finitely many nets have settled values in each setting, exactly one each.
pub fn nets_settle()
    ensures exist { SettledExists }
    ensures once { SettledOnce }
{}

/// Finitely many nets have a trace from any values under whatever is given, exactly one, and each of its settings is a
/// solution.
pub fn nets_run()
    ensures exist { TraceExists }
    ensures once { TraceOnce }
    ensures loose { TraceLoosens }
{}

/// A gate with an input at 1 is 0, and a part with definite leaves has the bits of its expressions in every solution.
pub fn bits_are_told()
    ensures one { OneInputDecides }
    ensures told { BitsAreTold }
{}

/// A clock takes a definite state to the one that the data have, and from any values a reset leaves the zero state.
pub fn states_step()
    ensures steps { ClockSteps }
    ensures clears { ResetClears }
{}
