//! Parts that a device may be joined to.

ghost use Rattle.std.specs.Prelude.{◌≡◌, List, ℕ};

/// A part. Its state is a list of numbers; what it drives is a function of the state, and the state after it has seen a
/// number is one of the state before and the number. Both functions belong to the kind of part.
pub trait Part: Drop {
    ghost state: { Self → List ℕ };

    ghost driven_in: { List ℕ → ℕ };

    ghost after_seeing: { List ℕ → ℕ → List ℕ };

    /// What it drives.
    fn drives(&self) -> u64
        ensures { result ≡ driven_in (state self.now) };

    /// Moves by what it sees.
    fn clock(&mut self, seen: u64)
        ensures { state self.new ≡ after_seeing (state self.old) seen };
}

/// A part that words may name.
#[derive(Drop)]
pub struct NamedPart {
    pub name: String,
    pub part: Box<dyn Part>,
}

/// What the part drives.
pub(crate) fn drives(part: &NamedPart) -> u64
    ensures { result ≡ (⟦<dyn Part as Part>⟧ part.now.part.vtable).driven_in (state part.now.part) }
{
    part.part.drives()
}

/// The part sees a number.
pub(crate) fn see(part: &mut NamedPart, seen: u64)
    ensures state { state part.new.part
        ≡ (⟦<dyn Part as Part>⟧ part.old.part.vtable).after_seeing (state part.old.part) seen }
    ensures kind { part.new.part.vtable ≡ part.old.part.vtable }
    ensures name { part.new.name ≡ part.old.name }
{
    part.part.clock(seen)
}
