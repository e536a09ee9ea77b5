//! What each rule of sources and stimuli says.

use mp_base::{Family, Rule};

// E1 to E11: the text and its forms.
fn text_meaning(number: u16) -> &'static str {
    match number {
        1 => "a character that stands for nothing",
        2 => "a list is still open at the end of the file",
        3 => "a `)` closes nothing",
        4 => "a number is over 18446744073709551615",
        5 => "a list stands inside 64 others",
        10 => "this isn't what has to stand here",
        11 => "the word length isn't 1 to 64",
        _ => "a rule of the text is broken",
    }
}

// E20 to E27: names, sorts, numbers and pins.
fn name_meaning(number: u16) -> &'static str {
    match number {
        20 => "a name or a supply is defined twice, or a reserved name is defined",
        21 => "a name isn't defined",
        22 => "a bit and a word are mixed up",
        23 => "a number doesn't fit the word length",
        24 => "`bit` asks for a bit that words don't have",
        25 => "a pin is given twice",
        26 => "a port has not one pin for each bit of a word",
        27 => "an input or a constant can't be set",
        _ => text_meaning(number),
    }
}

// E28 to E45: jumps, what has to be there, and how much may be there.
fn source_meaning(number: u16) -> &'static str {
    match number {
        28 => "a label isn't in this process",
        29 => "a label stands twice in a process",
        30 => "only a process can `go`, `call` or `return`",
        31 => "a process of depth 0 can't `call` or `return`",
        32 => "two jumps stand side by side",
        33 => "a port or signal reads itself",
        34 => "the program keeps state and has no `reset`",
        35 => "a supply or a phase isn't defined",
        36 => "a process has no form",
        37 => "a use has not one operand for each argument of its function",
        38 => "a function or an argument has a name that means something else",
        39 => "a body names more than arguments, constants and functions",
        40 => "there are over 256 names of definitions and processes",
        41 => "there are over 16 processes",
        42 => "a process has over 256 forms",
        43 => "a stack is deeper than 8",
        44 => "the program weighs over 1024",
        45 => "there are over 4096 expressions",
        _ => name_meaning(number),
    }
}

fn stimulus_meaning(number: u16) -> &'static str {
    match number {
        1 => "a line is in none of the forms of a stimulus",
        2 => "the program has no such pad",
        3 => "a value doesn't fit its pad",
        4 => "there are over 65536 clocks",
        _ => "a rule of stimuli is broken",
    }
}

/// What is wrong where a rule is broken.
pub fn meaning(rule: Rule) -> &'static str {
    match rule.family {
        Family::E => source_meaning(rule.number),
        Family::S => stimulus_meaning(rule.number),
        Family::L => "a source or stimulus is longer than 1048576 bytes",
        _ => "a rule of masks is broken",
    }
}

fn early_advice(number: u16) -> &'static str {
    match number {
        1 => "names and numbers are made of letters, digits and - _ + * / < = >",
        2 => "each list ends with a `)` of its own",
        3 => "take it away, or look for a `)` too many before it",
        4 | 23 => "a word of w bits holds numbers below 2^w, written in decimal",
        20 => "t, f, vdd, gnd, phia, phib and phic are reserved; any other name is defined once",
        21 =>
            "define it, as in `(def NAME register)`, `(def NAME flag)` or `(def NAME signal internal)`",
        22 =>
            "words: numbers, constants, registers, ports; bits: flags, signals, `t`, `f`, comparisons",
        24 => "the bits of a word are counted from 0, the lowest",
        26 => "the first pin of a port is its bit 0",
        27 => "what is set is a register, a flag, or an output or internal port or signal",
        _ => "",
    }
}

/// What one may do where a rule of sources is broken, or nothing.
pub fn advice(rule: Rule) -> &'static str {
    match (rule.family, rule.number) {
        (Family::E, 30) => "an `always` has no place to go to: write a `process`",
        (Family::E, 31) =>
            "the number behind the name of a process is the depth of its stack: 1 to 8",
        (Family::E, 32) => "put them into different branches of one `cond`",
        (Family::E, 33) => "only registers and flags hold values from clock to clock",
        (Family::E, 34) => "add `(def reset signal input PIN)`, and set it in the first clock",
        (Family::E, 36) => "a process needs a form beside its labels",
        (Family::E, 39) => "give the function an argument for it, and the use an operand",
        (Family::S, 1) =>
            "write `in NAME`, `in NAME WIDTH`, `out NAME`, `out NAME WIDTH` or `clock NAME=N ..`",
        (Family::E, number) => early_advice(number),
        _ => "",
    }
}
