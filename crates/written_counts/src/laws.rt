//! Laws of counts: a call of one does nothing, and tells the caller's proof what it ensures.

ghost use Rattle.std.specs.Prelude.{◌≡◌, ◌<◌, ◌+◌, ℕ, length};
ghost use Rattle.std.specs.List.{sum_by};
ghost use Rattle.mp_written.specs.declared.program.ExprKind.{ExprKind};
ghost use Rattle.mp_written.specs.declared.program.Program.{Program};
ghost use Rattle.mp_written.specs.Pieces.{pieces};
ghost use Rattle.mp_written.specs.Expansion.{all_pieces, tops};
ghost use Rattle.mp_written.specs.Weight.{frame_weight, piece_weight, weight};
ghost use Rattle.written_counts.specs.Counts.{counted};
ghost use Rattle.written_counts.specs.Totals.{total};

/// What an expression becomes counts what is counted without making it, whatever each kind of expression counts.
pub fn pieces_counted()
    ensures { (m : ExprKind → ℕ) (w : Program) (e : ℕ) → e < length w.exprs → total m (pieces w e) ≡ counted m w e }
{}

/// The weight of a program's expansion, from the counts of guards and values.
pub fn weight_counted()
    ensures { (w : Program) → weight w ≡ frame_weight w + sum_by (λ v. counted (piece_weight w) w v) (tops w) }
{}

/// The number of expressions of a program's expansion, from the counts of guards and values.
pub fn length_counted()
    ensures { (w : Program) → length (all_pieces w) ≡ sum_by (λ v. counted (λ k. 1) w v) (tops w) }
{}
