//! Operators and words.

use mp_base::{Op, Trit, Word, join};
use std::{fs, io};

const OPERATORS: [Op; 20] = [
    Op::Add,
    Op::Sub,
    Op::Inc,
    Op::Dec,
    Op::WordAnd,
    Op::WordOr,
    Op::WordXor,
    Op::WordNot,
    Op::Left,
    Op::Right,
    Op::And,
    Op::Or,
    Op::Nor,
    Op::Nand,
    Op::Xor,
    Op::Not,
    Op::Bit,
    Op::Zero,
    Op::Equal,
    Op::Less,
];

fn operator(rt: &HostRuntime, name: &str) -> io::Result<Option<Op>> {
    for op in OPERATORS {
        if format!(in rt.alloc(); "{op:?}")?.as_str() == name {
            return Ok(Some(op));
        }
    }
    Ok(None)
}

fn number(text: Option<&str>) -> Option<u64> {
    text?.parse::<u64>().ok()
}

// The value of an operator: its name, the width, the index, and two operands.
fn value(rt: &HostRuntime, line: &str) -> io::Result<Option<u64>> {
    let mut words = line.split_whitespace();
    let Some(op) = operator(rt, words.next().unwrap_or(""))? else {
        return Ok(None);
    };
    let width = number(words.next()).unwrap_or(0);
    let index = number(words.next()).unwrap_or(0);
    let first = number(words.next()).unwrap_or(0);
    let second = number(words.next()).unwrap_or(0);
    if width == 0 || width > 64 {
        return Ok(None);
    }
    Ok(Some(op.apply(width as u8, index, &[first, second])))
}

fn show_words(rt: &HostRuntime) -> io::Result<()> {
    let a = Word { bits: 9, width: 4 };
    let b = Word { bits: 10, width: 4 };
    let (sum, difference) = (a.plus(b).bits, a.minus(b).bits);
    println!(rt; "9 and 10 at 4 bits: sum {sum}, difference {difference}")?;
    let (high, low) = (a.bit(3), a.bit(2));
    println!(rt; "bits 3 and 2 of 9: {high} {low}")?;
    let (one, none) = (Trit::One.meet(Trit::One), Trit::One.meet(Trit::Zero));
    println!(rt; "One meets One and Zero: {one:?} {none:?}")?;
    let (both, second) = (join(Some(5), Some(2)), join(None, Some(2)));
    println!(rt; "5 or nothing, joined to 2: {both:?} {second:?}")
}

pub(crate) fn show(rt: &HostRuntime) -> io::Result<()> {
    let lines = fs::read_to_string(rt, "operators.txt")?;
    for line in lines.lines() {
        match value(rt, line)? {
            Some(value) => println!(rt; "{line}: {value}")?,
            None => println!(rt; "{line}: no operator")?,
        }
    }
    show_words(rt)
}
