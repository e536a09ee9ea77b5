//! Laws of programs: a call of one does nothing, and tells the caller's proof what it ensures.

ghost use Rattle.std.specs.Prelude.{◌≡◌, ℕ, ◌<◌, List, [], true, false, length, slice_get, slice_index_or, Some};
ghost use Rattle.mp_program.specs.declared.program.Expr.{Expr};
ghost use Rattle.mp_program.specs.declared.program.Form.{Form};
ghost use Rattle.mp_program.specs.declared.program.Def.{Def};
ghost use Rattle.mp_program.specs.declared.program.Program as spec;
ghost use Rattle.mp_program.specs.Sound.{IsSound, IsTree};
ghost use Rattle.mp_program.specs.Names.{is_driven};
ghost use Rattle.mp_program.specs.Values.{value_of, kind_value};
ghost use Rattle.mp_program.specs.Effects.{effects_of, kind_effects, written};
ghost use Rattle.mp_program.specs.State.{State, IsState, zero_state};
ghost use Rattle.mp_program.specs.Environment.{IsEnvironment, driven_value};
ghost use Rattle.mp_program.specs.Exactly.{ExactlyOne};
ghost use Rattle.mp_program.specs.Step.{next_state};
ghost use Rattle.mp_program.specs.Trace.{IsTrace, IsTraceFrom};
ghost use Rattle.mp_program.specs.Reads.{Reads, IsOrder, mentions, kind_mentions, sets, kind_sets, form_reads};
ghost use Rattle.mp_program.specs.Reads.{kind_reads};

use crate::program::Program;

/// The indices of a program are in range, and those of what stands in an expression or form are greater.
pub fn sound(program: &Program)
    ensures { IsSound program.now }
{}

/// The same of all programs.
pub fn all_sound()
    ensures { (p : spec.Program) → IsSound p }
{}

/// A program is a tree: each expression and form stands in one place at most, and none is nested deep.
pub fn tree(program: &Program)
    ensures { IsTree program.now }
{}

/// The value of an expression is that of its kind on the values of its arguments.
pub fn values(program: &Program)
    ensures { (env : List ℕ) (e : ℕ) (x : Expr) → slice_get program.now.exprs e ≡ Some x
        → value_of program.now env e ≡ kind_value program.now env x.kind (value_of program.now env) }
{}

/// The effects of a form are those of its kind on the effects of the forms in it.
pub fn effects(program: &Program)
    ensures { (env : List ℕ) (f : ℕ) (x : Form) → slice_get program.now.forms f ≡ Some x
        → effects_of program.now env f ≡ kind_effects (value_of program.now env) x.kind (effects_of program.now env) }
{}

/// A form sets a name as its kind does, by what the forms in it set.
pub fn sets(program: &Program)
    ensures { (name : List ℕ) (f : ℕ) (x : Form) → slice_get program.now.forms f ≡ Some x
        → sets program.now name f ≡ kind_sets name x.kind (sets program.now name) }
{}

/// An expression mentions a name as its kind does, by what its arguments mention.
pub fn mentions(program: &Program)
    ensures { (name : List ℕ) (e : ℕ) (x : Expr) → slice_get program.now.exprs e ≡ Some x
        → mentions program.now name e ≡ kind_mentions name x.kind (mentions program.now name) }
{}

/// A form reads for a name as its kind does, by what the forms in it read.
pub fn reads(program: &Program)
    ensures { (name other : List ℕ) (f : ℕ) (x : Form) → slice_get program.now.forms f ≡ Some x
        → form_reads program.now name other f
        ≡ kind_reads (mentions program.now other) (sets program.now name) name x.kind
        (form_reads program.now name other) }
{}

/// A form that sets a name nowhere writes nothing to it.
pub fn silence(program: &Program)
    ensures { (env name : List ℕ) (f : ℕ) → f < length program.now.forms → sets program.now name f ≡ false
        → written name (effects_of program.now env f) ≡ [] }
{}

/// What is driven to a definition depends on the definitions that it reads and on those that are not driven.
pub fn driven_by_reads(program: &Program)
    ensures { (st : State) (env other : List ℕ) (a : ℕ) (x : Def) → IsState program.now st
        → length env ≡ length program.now.defs → length other ≡ length program.now.defs
        → slice_get program.now.defs a ≡ Some x → is_driven x.what ≡ true
        → ((b : ℕ) (y : Def) → slice_get program.now.defs b ≡ Some y → is_driven y.what ≡ false
        → slice_index_or env b 0 ≡ slice_index_or other b 0)
        → ((b : ℕ) → Reads program.now a b → slice_index_or env b 0 ≡ slice_index_or other b 0)
        → driven_value program.now st env x ≡ driven_value program.now st other x }
{}

/// The state after a clock is a state of the program, if it has one: then each process has a form.
pub fn next_states(program: &Program)
    requires { IsState program.now (zero_state program.now) }
    ensures { (st : State) (inputs env : List ℕ) → IsState program.now st
        → IsState program.now (next_state program.now st inputs env) }
{}

/// Where there is an order of evaluation, a state and inputs have at most one environment.
pub fn one_environment(program: &Program, order: &[u32])
    requires { IsOrder program.now order.now }
    ensures { (st : State) (inputs a b : List ℕ) → IsState program.now st → IsEnvironment program.now st inputs a
        → IsEnvironment program.now st inputs b → a ≡ b }
{}

/// Where there is an order of evaluation, inputs have at most one trace.
pub fn one_trace(program: &Program, order: &[u32])
    requires ordered { IsOrder program.now order.now }
    requires state { IsState program.now (zero_state program.now) }
    ensures { (inputs a b : List (List ℕ)) → IsTrace program.now inputs a → IsTrace program.now inputs b → a ≡ b }
{}

/// Where there is an order of evaluation, a state and inputs have a trace.
pub fn traces_exist(program: &Program, order: &[u32])
    requires ordered { IsOrder program.now order.now }
    requires state { IsState program.now (zero_state program.now) }
    ensures { (st : State) (inputs : List (List ℕ)) → IsState program.now st
        → (outputs : List (List ℕ)) × IsTraceFrom program.now st inputs outputs }
{}

/// Where there is an order of evaluation, a state and inputs have exactly one environment.
pub fn exactly_one_environment(program: &Program)
    ensures { (order : List ℕ) → IsOrder program.now order → (st : State) (inputs : List ℕ) → IsState program.now st
        → ExactlyOne (IsEnvironment program.now st inputs) }
{}

/// Where there is an order of evaluation, inputs have exactly one trace.
pub fn exactly_one_trace(program: &Program)
    requires { IsState program.now (zero_state program.now) }
    ensures { (order : List ℕ) → IsOrder program.now order
        → (inputs : List (List ℕ)) → ExactlyOne (IsTrace program.now inputs) }
{}
