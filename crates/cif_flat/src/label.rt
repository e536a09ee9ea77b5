//! Labels.

ghost use Rattle.std.specs.Prelude.{◌≡◌, ◌≢◌, ◌<◌, ◌≤◌, ◌^◌, ℕ, List, ℤ, Option, All, length, take, drop, slice_range};
ghost use Rattle.std.specs.Prelude.{◌↔◌, IsTrue, IfSome, IfNone};
ghost use Rattle.lam_geom.specs.declared.layer.Layer.{Layer};
ghost use Rattle.cif_form.specs.declared.limits.TheConstants.{NUMBER_LIMIT};
ghost use Rattle.cif_form.specs.Text.{Digits};
ghost use Rattle.cif_form.specs.Place.{layer_name};
ghost use Rattle.cif_form.specs.Labels.{IsSpace, Coordinate};
ghost use Rattle.cif_form.specs.Names.{IsNameText};
ghost use Rattle.cif_flat.specs.Labelling.{IsLabelled, Begins, IsNextWord, Tail, IsLabelLayer};

use crate::symbol::Naming;
use cif_form::NUMBER_LIMIT;
use lam_geom::Layer;
use mp_base::is_digit;

/// A label as it is written: where its name stands, its point in half-units of its symbol, and its layer.
#[derive(Clone, Copy, Drop)]
pub(crate) struct Written {
    pub named: Naming,
    pub x: i64,
    pub y: i64,
    pub layer: Option<Layer>,
}

fn is_space(byte: u8) -> bool
    ensures { IsTrue result ↔ IsSpace byte }
{
    byte == b' ' || byte == b'\t' || byte == b'\n' || byte == b'\r'
}

/// How many spaces stand in front.
fn space_count(text: &[u8]) -> usize
    ensures within { result ≤ length text.now }
    ensures spaces { All IsSpace (take result text.now) }
    ensures stops { Begins (λ b. ¬ IsSpace b) (drop result text.now) }
{
    for (index, byte) in text.iter().enumerate() {
        if !is_space(*byte) {
            return index;
        }
    }
    text.len()
}

/// How many bytes stand in front that are no spaces.
fn word_size(text: &[u8]) -> usize
    ensures within { result ≤ length text.now }
    ensures solid { All (λ b. ¬ IsSpace b) (take result text.now) }
    ensures stops { Begins IsSpace (drop result text.now) }
{
    for (index, byte) in text.iter().enumerate() {
        if is_space(*byte) {
            return index;
        }
    }
    text.len()
}

/// The next word behind spaces, and what follows it.
fn next_word(text: &[u8]) -> Option<(&[u8], &[u8])>
    ensures some { IfSome result (λ p. IsNextWord text.now p.0.now p.1.now) }
    ensures none { IfNone result ((word rest : List ℕ) → ¬ IsNextWord text.now word rest) }
{
    let start = space_count(text);
    if start == 0 {
        return None;
    }
    let rest = &text[start..];
    let size = word_size(rest);
    if size == 0 {
        return None;
    }
    Some((&rest[..size], &rest[size..]))
}

/// Where the name stands in the text of a user command that names a symbol.
pub(crate) fn name_span(text: &[u8]) -> Option<(usize, usize)>
    ensures some { IfSome result (λ p. IsNameText (slice_range text.now p.0 p.1) text.now) }
    ensures none { IfNone result ((name : List ℕ) → ¬ IsNameText name text.now) }
{
    let Some((word, rest)) = next_word(text) else {
        return None;
    };
    if space_count(rest) < rest.len() {
        return None;
    }
    let end = text.len() - rest.len();
    Some((end - word.len(), end))
}

/// The number that these digits write, if they are digits and it is below the limit.
fn natural(digits: &[u8]) -> Option<u64>
    ensures some { IfSome result (λ n. (n < NUMBER_LIMIT) × Digits n digits.now) }
    ensures none { IfNone result ((n : ℕ) → n < NUMBER_LIMIT → ¬ Digits n digits.now) }
{
    if digits.is_empty() {
        return None;
    }
    let mut number: u64 = 0;
    for digit in digits {
        if !is_digit(*digit) {
            return None;
        }
        number = number * 10 + (*digit - b'0') as u64;
        if number >= NUMBER_LIMIT {
            return None;
        }
    }
    Some(number)
}

/// A number of half-units, for one of units at most 2^31 - 1 in size.
fn coordinate(text: &[u8]) -> Option<i64>
    ensures some { IfSome result (λ half. Coordinate half text.now) }
    ensures none { IfNone result ((half : ℤ) → ¬ Coordinate half text.now) }
{
    let (first, rest) = text.split_first()?;
    if *first == b'-' {
        let number = natural(rest)?;
        return Some(-2 * (number as i64));
    }
    let number = natural(text)?;
    Some(2 * (number as i64))
}

/// A layer that a label may have.
fn label_layer(word: &[u8]) -> Option<Layer>
    ensures some { IfSome result (λ l. (word.now ≡ layer_name l) × IsLabelLayer l) }
    ensures none { IfNone result ((l : Layer) → IsLabelLayer l → word.now ≢ layer_name l) }
{
    match word {
        b"NM" => Some(Layer::NM),
        b"NP" => Some(Layer::NP),
        b"ND" => Some(Layer::ND),
        _ => None,
    }
}

/// The layer behind the numbers of a label, or none, and then its end.
fn tail(text: &[u8]) -> Option<Option<Layer>>
    ensures some { IfSome result (λ l. Tail l text.now) }
    ensures none { IfNone result ((l : Option Layer) → ¬ Tail l text.now) }
{
    if space_count(text) == text.len() {
        return Some(None);
    }
    let (word, end) = next_word(text)?;
    if space_count(end) < end.len() {
        return None;
    }
    let layer = label_layer(word)?;
    Some(Some(layer))
}

/// The label of the text of the user command at an index, if it is one.
pub(crate) fn label_of(item: usize, text: &[u8]) -> Option<Written>
    ensures { IsLabelled item text.now result }
{
    let Some((first, rest)) = text.split_first() else {
        return None;
    };
    if *first != b'4' {
        return None;
    }
    let Some((name, behind)) = next_word(rest) else {
        return None;
    };
    let Some((across, rest)) = next_word(behind) else {
        return None;
    };
    let Some((up, rest)) = next_word(rest) else {
        return None;
    };
    let Some(x) = coordinate(across) else {
        return None;
    };
    let Some(y) = coordinate(up) else {
        return None;
    };
    let Some(layer) = tail(rest) else {
        return None;
    };
    let end = text.len() - behind.len();
    Some(Written {
        named: Naming {
            item,
            start: end - name.len(),
            end,
        },
        x,
        y,
        layer,
    })
}
