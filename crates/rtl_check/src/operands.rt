//! What operators take and give.

ghost use Rattle.std.specs.Prelude.{◌≡◌};
ghost use Rattle.rtl_form.specs.Operands.{takes_words, gives_word};
ghost use Rattle.mp_base.specs.Apply.{takes};

use mp_base::Op;

/// Whether an operator takes this many operands.
pub(crate) fn takes(op: Op, count: usize) -> bool
    ensures { result ≡ takes op count }
{
    match op {
        Op::And | Op::Or | Op::Nor | Op::Nand => count > 0,
        Op::Inc | Op::Dec | Op::WordNot | Op::Left | Op::Right | Op::Not | Op::Bit | Op::Zero =>
            count == 1,
        _ => count == 2,
    }
}

/// Whether the operands of an operator are words.
pub(crate) fn takes_words(op: Op) -> bool
    ensures { result ≡ takes_words op }
{
    !matches!(
        op,
        Op::And | Op::Or | Op::Nor | Op::Nand | Op::Xor | Op::Not
    )
}

/// Whether an operator gives a word.
pub(crate) fn gives_word(op: Op) -> bool
    ensures { result ≡ gives_word op }
{
    takes_words(op) && !matches!(op, Op::Bit | Op::Zero | Op::Equal | Op::Less)
}
