//! The line that ends a run.

ghost use Rattle.std.specs.Prelude.{◌≡◌, [], ◌∷◌, ◌++◌, codes, count_by, length};
ghost use Rattle.std.specs.Fmt.{decimal};
ghost use Rattle.mp_base.specs.declared.value.Trit.TheVariants.{One, X};
ghost use Rattle.outside.specs.Outside.{Gains, HasCause};
ghost use Rattle.outside.specs.Piece.{TakesAll};
ghost use Rattle.switch_net.specs.Values.{value_at};
ghost use Rattle.switch_net.specs.declared.network.Network.{Network};
ghost use Rattle.switch_net.specs.Sizes.{same_value};
ghost use Rattle.mask_net.specs.SizeLine.{counts_text, last_line, size_text};

use itoa::Buffer;
use mp_base::Trit;
use outside::{Failed, Sink, write_all};

fn same_value(a: Trit, b: Trit) -> bool
    ensures { result ≡ same_value a b }
{
    matches!(
        (a, b),
        (Trit::Zero, Trit::Zero) | (Trit::One, Trit::One) | (Trit::X, Trit::X)
    )
}

// How many nodes have a value.
fn count(values: &[Trit], value: Trit) -> usize
    ensures { result ≡ count_by (same_value value) values.now }
{
    values.iter().filter(|x| same_value(value, **x)).count()
}

// Writes a text and then another.
fn write_both<O: Sink>(out: &mut O, first: &[u8], then: &[u8]) -> Result<(), Failed>
    ensures taken { TakesAll Gains (O.held out.old) (O.held out.new) (first.now ++ then.now) result }
    ensures cause { HasCause (O.faults out.old) (O.faults out.new) result }
{
    write_all(out, first)?;
    write_all(out, then)
}

// Writes a number behind some words.
fn write_number<O: Sink>(out: &mut O, words: &[u8], number: usize) -> Result<(), Failed>
    ensures taken { TakesAll Gains (O.held out.old) (O.held out.new) (words.now ++ decimal number) result }
    ensures cause { HasCause (O.faults out.old) (O.faults out.new) result }
{
    let mut buffer = Buffer::new();
    write_both(out, words, buffer.format(number).as_bytes())
}

// Writes how many nodes are at X, and ends the line.
fn write_unknown<O: Sink>(out: &mut O, values: &[Trit]) -> Result<(), Failed>
    ensures taken { TakesAll Gains (O.held out.old) (O.held out.new)
        (codes " unknown " ++ decimal (count_by (same_value X) values.now) ++ 10 ∷ []) result }
    ensures cause { HasCause (O.faults out.old) (O.faults out.new) result }
{
    write_number(out, b" unknown ", count(values, Trit::X))?;
    write_all(out, b"\n")
}

// Writes how many nodes are at 1 and at X, and ends the line.
fn write_counts<O: Sink>(out: &mut O, values: &[Trit]) -> Result<(), Failed>
    ensures taken { TakesAll Gains (O.held out.old) (O.held out.new)
        (counts_text (count_by (same_value One) values.now) (count_by (same_value X) values.now)) result }
    ensures cause { HasCause (O.faults out.old) (O.faults out.new) result }
{
    write_number(out, b" ones ", count(values, Trit::One))?;
    write_unknown(out, values)
}

/// Writes the size line at the end of a run: the size of a network, which was made before the run, and how many of its
/// nodes have the value 1 and the value X. Takes no memory.
///
/// # Errors
///
/// `Failed` where the sink failed.
pub fn write_last_line<O: Sink>(out: &mut O, size: &[u8], values: &[Trit]) -> Result<(), Failed>
    ensures taken { (net : Network) → size.now ≡ size_text net → length values.now ≡ net.nodes
        → TakesAll Gains (O.held out.old) (O.held out.new) (last_line net (value_at values.now)) result }
    ensures cause { HasCause (O.faults out.old) (O.faults out.new) result }
{
    write_all(out, size)?;
    write_counts(out, values)
}
