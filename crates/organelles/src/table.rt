//! The gates of each word operator.

ghost use Rattle.std.specs.Prelude.{◌≡◌, map};
ghost use Rattle.organelles.specs.Tables.{table_of};
ghost use Rattle.organelles.specs.Pairs.{inputs_of};

use crate::slices::Organelle;

// How slices are joined, and the number of the net that the chain comes from.
#[derive(Clone, Copy, PartialEq, Eq, Debug)]
pub(crate) enum Joint {
    Alone,
    Upward(u8),
    Downward(u8),
}

// The gates of an operator as pairs of inputs: 0 and 1 are the operands, 2 is the end of the chain, and gates are
// numbered from 3. A gate with one input has it twice.
pub(crate) fn gates(op: Organelle) -> &'static [(u8, u8)]
    ensures { map inputs_of result.now ≡ (table_of op).gates }
{
    match op {
        Organelle::Add => &[
            (0, 1),
            (0, 3),
            (1, 3),
            (4, 5),
            (6, 2),
            (6, 7),
            (2, 7),
            (8, 9),
            (3, 7),
        ],
        Organelle::Sub => &[
            (0, 1),
            (0, 3),
            (1, 3),
            (4, 5),
            (6, 2),
            (6, 7),
            (2, 7),
            (8, 9),
            (2, 2),
            (11, 5),
            (4, 12),
            (13, 13),
        ],
        Organelle::Inc => &[(0, 2), (0, 3), (2, 3), (4, 5), (5, 5)],
        Organelle::Dec => &[(0, 2), (0, 3), (2, 3), (4, 5), (3, 3)],
        Organelle::And => &[(0, 0), (1, 1), (3, 4)],
        Organelle::Or => &[(0, 1), (3, 3)],
        Organelle::Xor => &[(0, 1), (0, 3), (1, 3), (4, 5), (6, 6)],
        Organelle::Not => &[(0, 0)],
        Organelle::Left => &[],
        Organelle::Right => &[],
        Organelle::Zero => &[(2, 0), (3, 3)],
        Organelle::Equal => &[(0, 1), (0, 3), (1, 3), (4, 5), (6, 6), (2, 7), (8, 8)],
        Organelle::Less => &[(0, 1), (0, 3), (1, 3), (2, 2), (6, 5), (4, 7), (8, 8)],
    }
}

// The chain of an operator.
pub(crate) fn joint_of(op: Organelle) -> Joint
    ensures { result ≡ (table_of op).joint }
{
    match op {
        Organelle::Add => Joint::Upward(11),
        Organelle::Sub => Joint::Upward(14),
        Organelle::Inc => Joint::Upward(7),
        Organelle::Dec => Joint::Upward(7),
        Organelle::And => Joint::Alone,
        Organelle::Or => Joint::Alone,
        Organelle::Xor => Joint::Alone,
        Organelle::Not => Joint::Alone,
        Organelle::Left => Joint::Upward(0),
        Organelle::Right => Joint::Downward(0),
        Organelle::Zero => Joint::Upward(4),
        Organelle::Equal => Joint::Upward(9),
        Organelle::Less => Joint::Upward(9),
    }
}

// The number of the result of an operator.
pub(crate) fn result_number(op: Organelle) -> u8
    ensures { result ≡ (table_of op).result }
{
    match op {
        Organelle::Add => 10,
        Organelle::Sub => 10,
        Organelle::Inc => 6,
        Organelle::Dec => 6,
        Organelle::And => 5,
        Organelle::Or => 4,
        Organelle::Xor => 7,
        Organelle::Not => 3,
        Organelle::Left => 2,
        Organelle::Right => 2,
        Organelle::Zero => 3,
        Organelle::Equal => 8,
        Organelle::Less => 9,
    }
}
