//! Laws of transfers: a call of one does nothing, and tells the caller's proof what it ensures.

ghost use Rattle.std.specs.Prelude.{◌≡◌, ℕ, List};
ghost use Rattle.rtl_form.specs.declared.rtl.RtlExpr.{RtlExpr};
ghost use Rattle.mp_base.specs.Entries.{IsAt};
ghost use Rattle.rtl_form.specs.Values.{value_of, expr_value};
ghost use Rattle.rtl_form.specs.Environment.{IsEnvironment};
ghost use Rattle.rtl_form.specs.Trace.{IsTrace, IsTraceFrom};
ghost use Rattle.rtl_form.specs.Sound.{IsSound};
ghost use Rattle.rtl_form.specs.Digits.{WrittenDigits};
ghost use Rattle.rtl_form.specs.Fitting.{ValuesFit};
ghost use Rattle.rtl_form.specs.Known.{AllKnown};

use crate::rtl::Rtl;

/// The value of an expression is found from those of its arguments.
pub fn values(rtl: &Rtl)
    requires { IsSound rtl.now }
    ensures { (env : List ℕ) (e : ℕ) (x : RtlExpr) → IsAt rtl.now.exprs e x
        → value_of rtl.now env e ≡ expr_value rtl.now.width env x (value_of rtl.now env) }
{}

/// A state and inputs have at most one environment.
pub fn one_environment(rtl: &Rtl)
    requires { IsSound rtl.now }
    ensures { (state inputs a b : List ℕ)
        → IsEnvironment rtl.now state inputs a → IsEnvironment rtl.now state inputs b → a ≡ b }
{}

/// A state and inputs have an environment.
pub fn environments_exist(rtl: &Rtl)
    requires { IsSound rtl.now }
    ensures { (state inputs : List ℕ) → (env : List ℕ) × IsEnvironment rtl.now state inputs env }
{}

/// Inputs have at most one trace.
pub fn one_trace(rtl: &Rtl)
    requires { IsSound rtl.now }
    ensures { (inputs a b : List (List ℕ)) → IsTrace rtl.now inputs a → IsTrace rtl.now inputs b → a ≡ b }
{}

/// From each state, inputs have a trace.
pub fn traces_exist(rtl: &Rtl)
    requires { IsSound rtl.now }
    ensures { (state : List ℕ) (inputs : List (List ℕ))
        → (outputs : List (List ℕ)) × IsTraceFrom rtl.now state inputs outputs }
{}

/// What holds of inputs and stored cells, and passes along expressions and to driven cells, holds of all cells.
pub fn cells_are_reached()
    ensures { AllKnown }
{}

/// What is written to a cell, bit by bit.
pub fn bits_are_written()
    ensures { WrittenDigits }
{}

/// In a clock from a state that fits, with inputs that fit, all values fit.
pub fn values_fit()
    ensures { ValuesFit }
{}
