//! Trees of words. The item of number i has bit i % 64 of word i / 64. The items before the last words are the words
//! but the first, in their order: item i is word i + 1, and is marked exactly where that word has a bit. The other
//! items are leaves.

ghost use Rattle.std.specs.Prelude.{◌≡◌, ◌≢◌, ℕ, ◌+◌, ◌*◌, ◌^◌, ◌<◌, ◌≤◌, length, IfSome, IfNone};
ghost use Rattle.cell_set.specs.Tree.{word_at, IsMarked, AreNoted, AreNotedBut, AreSound, IsLast, IsFirst};

use crate::bits::{highest, highest_below, lowest_from, with, without};

/// Marks an item, and the words above it.
pub(crate) fn mark(words: &mut Vec<u64>, item: usize)
    requires within { item < 64 * length words.old.items }
    requires noted { AreNotedBut words.old.items item }
    requires own { item + 1 < length words.old.items → 0 < word_at words.old.items (item + 1) }
    ensures noted { AreNoted words.new.items }
    ensures marked { IsMarked words.new.items item }
    ensures more { (i : ℕ) → IsMarked words.old.items i → IsMarked words.new.items i }
    ensures leaves { (i : ℕ) → length words.old.items ≤ i + 1 → i ≢ item → IsMarked words.new.items i
        → IsMarked words.old.items i }
    ensures as_many { length words.new.items ≡ length words.old.items }
{
    let at = item / 64;
    let word = words[at];
    words[at] = with(word, (item % 64) as u32);
    if 0 < word || at == 0 {
        return;
    }
    mark(words, at - 1);
}

/// Clears an item, and the words above it that have no item left.
pub(crate) fn clear(words: &mut Vec<u64>, item: usize)
    requires within { item < 64 * length words.old.items }
    requires noted { AreNotedBut words.old.items item }
    requires own { item + 1 < length words.old.items → word_at words.old.items (item + 1) ≡ 0 }
    ensures noted { AreNoted words.new.items }
    ensures cleared { ¬ IsMarked words.new.items item }
    ensures fewer { (i : ℕ) → IsMarked words.new.items i → IsMarked words.old.items i }
    ensures leaves { (i : ℕ) → length words.old.items ≤ i + 1 → i ≢ item → IsMarked words.old.items i
        → IsMarked words.new.items i }
    ensures as_many { length words.new.items ≡ length words.old.items }
{
    let at = item / 64;
    let word = without(words[at], (item % 64) as u32);
    words[at] = word;
    if 0 < word || at == 0 {
        return;
    }
    clear(words, at - 1);
}

/// The last marked item before this one.
pub(crate) fn last_before(words: &[u64], item: usize) -> Option<usize>
    requires within { item < 64 * length words.now }
    requires sound { AreSound words.now }
    ensures some { IfSome result (IsLast words.now item) }
    ensures none { IfNone result ((i : ℕ) → i < item → ¬ IsMarked words.now i) }
{
    let at = item / 64;
    if let Some(place) = highest_below(words[at], (item % 64) as u32) {
        return Some(64 * at + place as usize);
    }
    if at == 0 {
        return None;
    }
    match last_before(words, at - 1) {
        Some(above) => highest_in(words, above + 1),
        None => highest_in(words, 0),
    }
}

// The last marked item of a word.
fn highest_in(words: &[u64], at: usize) -> Option<usize>
    requires within { at < length words.now }
    requires small { length words.now < 2 ^ 26 }
    ensures some { IfSome result (IsLast words.now (64 * at + 64)) }
    ensures none { IfNone result (word_at words.now at ≡ 0) }
{
    match highest(words[at]) {
        Some(place) => Some(64 * at + place as usize),
        None => None,
    }
}

/// The first marked item from this one on.
pub(crate) fn first_from(words: &[u64], item: usize) -> Option<usize>
    requires within { item < 64 * length words.now }
    requires sound { AreSound words.now }
    ensures some { IfSome result (IsFirst words.now item) }
    ensures none { IfNone result ((i : ℕ) → item ≤ i → ¬ IsMarked words.now i) }
{
    let at = item / 64;
    if let Some(place) = lowest_from(words[at], (item % 64) as u32) {
        return Some(64 * at + place as usize);
    }
    if item == 0 {
        return None;
    }
    let above = first_from(words, at)?;
    if words.len() <= above + 1 {
        return None;
    }
    lowest_in(words, above + 1)
}

// The first marked item of a word.
fn lowest_in(words: &[u64], at: usize) -> Option<usize>
    requires within { at < length words.now }
    requires small { length words.now < 2 ^ 26 }
    ensures some { IfSome result (IsFirst words.now (64 * at)) }
    ensures none { IfNone result (word_at words.now at ≡ 0) }
{
    match lowest_from(words[at], 0) {
        Some(place) => Some(64 * at + place as usize),
        None => None,
    }
}
