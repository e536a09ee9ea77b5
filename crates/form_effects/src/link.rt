//! What the names of a program mean.

ghost use Rattle.std.specs.Prelude.{◌≡◌};
ghost use Rattle.form_effects.specs.Linked.{is_kind};

use mp_base::List;
use mp_program::What;

/// A kind of definitions that each clock goes over.
#[derive(Clone, Copy)]
pub(crate) enum Kind {
    Given,
    Stored,
    Shown,
}

impl Kind {
    /// Whether a definition is of this kind.
    pub(crate) fn holds(self, what: What) -> bool
        ensures { result ≡ is_kind self what }
    {
        match self {
            Kind::Given => what.is_input(),
            Kind::Stored => what.is_stored(),
            Kind::Shown => what.is_output(),
        }
    }
}

/// For each expression the definition that it names, for each form the one that it sets; for each process and each form
/// the place to which the form jumps; for each definition the first of its name, the forms that are always active and
/// set it, and which forms don't set it; the definitions of input pads, of what is stored and of output pads, in their
/// order; and the pad that resets.
#[derive(Drop)]
pub struct Links {
    pub exprs: Vec<usize>,
    pub forms: Vec<usize>,
    pub landings: List<List<usize>>,
    pub defs: Vec<usize>,
    pub setters: List<List<u32>>,
    pub quiet: List<List<bool>>,
    pub inputs: Vec<usize>,
    pub stored: Vec<usize>,
    pub outputs: Vec<usize>,
    pub reset: Option<usize>,
}
