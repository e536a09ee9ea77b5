//! What drives nodes.

ghost use Rattle.std.specs.Prelude.{◌≡◌, ◌<◌, ◌≤◌, ℕ, Option, All, length, flat_map};
ghost use Rattle.std.specs.List.{AllZip};
ghost use Rattle.std.specs.Int.{bit_at};
ghost use Rattle.mp_base.specs.declared.value.Trit.{Trit as TritValue};
ghost use Rattle.mp_base.specs.PadBits.{trit_of};
ghost use Rattle.clock_run.specs.Driving.{IsDriven, AreDriven, AreSet};

use mp_base::{List, Trit};

/// The bit of a number in a word.
fn bit(word: u64, k: usize) -> Trit
    requires { k < 64 }
    ensures { result ≡ trit_of (bit_at word k) }
{
    if (word >> k) & 1 == 1 {
        Trit::One
    } else {
        Trit::Zero
    }
}

/// Drives each node to its value.
pub(crate) fn drive_levels(nodes: &[u32], levels: &[Trit], drive: &mut [Option<Trit>])
    requires as_many { length levels.now ≡ length nodes.now }
    requires inside { All (λ n. n < length drive.old) nodes.now }
    ensures { (driver : ℕ → Option TritValue) → AllZip (IsDriven driver) nodes.now levels.now
        → AreSet driver nodes.now drive.old drive.new }
{
    for k in 0..nodes.len() {
        drive[nodes[k] as usize] = Some(levels[k]);
    }
}

/// Drives the nodes to the bits of a word.
fn drive_word(nodes: &[u32], word: u64, drive: &mut [Option<Trit>])
    requires few { length nodes.now ≤ 64 }
    requires inside { All (λ n. n < length drive.old) nodes.now }
    ensures { (driver : ℕ → Option TritValue) → AreDriven driver nodes.now word
        → AreSet driver nodes.now drive.old drive.new }
{
    for k in 0..nodes.len() {
        drive[nodes[k] as usize] = Some(bit(word, k));
    }
}

/// Drives the nodes of each word to its bits.
pub(crate) fn drive_words(nodes: &[List<u32>], words: &[u64], drive: &mut [Option<Trit>])
    requires as_many { length words.now ≡ length nodes.now }
    requires few { All (λ ns. length ns ≤ 64) nodes.now }
    requires inside { All (λ ns. All (λ n. n < length drive.old) ns) nodes.now }
    ensures { (driver : ℕ → Option TritValue) → AllZip (AreDriven driver) nodes.now words.now
        → AreSet driver (flat_map (λ ns. ns) nodes.now) drive.old drive.new }
{
    for k in 0..nodes.len() {
        drive_word(nodes[k].as_slice(), words[k], drive);
    }
}
