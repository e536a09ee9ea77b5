//! Operators, and what stands for those of other languages.

use mp_base::Op;

/// An operator as a source writes it.
pub fn op_word(op: Op) -> &'static str {
    match op {
        Op::Add => "+",
        Op::Sub => "-",
        Op::Inc => "1+",
        Op::Dec => "1-",
        Op::WordAnd => "word-and",
        Op::WordOr => "word-or",
        Op::WordXor => "word-xor",
        Op::WordNot => "word-not",
        Op::Left => "<<",
        Op::Right => ">>",
        Op::And => "and",
        Op::Or => "or",
        Op::Nor => "nor",
        Op::Nand => "nand",
        Op::Xor => "xor",
        Op::Not => "not",
        Op::Bit => "bit",
        Op::Zero => "=0",
        Op::Equal => "=",
        Op::Less => "<",
    }
}

/// What to write for an operator or a form of another language, or nothing.
pub fn foreign(word: &[u8]) -> &'static str {
    match word {
        b"<=" => "write `(not (< b a))` for a <= b",
        b">=" => "write `(not (< a b))` for a >= b",
        b">" => "write `(< b a)` for a > b",
        b"==" | b"eq" => "write `(= a b)`",
        b"/=" | b"=/" | b"ne" => "write `(not (= a b))`",
        b"*" | b"/" | b"mod" =>
            "there is no such operator: add, subtract and move bits, a step in each clock",
        b"if" | b"case" | b"when" => "write `(cond (GUARD FORM ..) (t FORM ..))`",
        b"set" | b"let" | b"setf" | b"assign" => "write `(setq NAME EXPRESSION)`",
        b"begin" | b"progn" | b"do" => "write `(par FORM ..)`",
        b"goto" | b"jump" => "write `(go LABEL)`",
        b"shl" | b"lsl" => "write `(<< a)`, which moves by one place",
        b"shr" | b"lsr" => "write `(>> a)`, which moves by one place",
        b"inc" => "write `(1+ a)`",
        b"dec" => "write `(1- a)`",
        b"xnor" => "write `(not (xor b c))`",
        b"input" | b"output" | b"reg" | b"wire" =>
            "write a definition: `(def NAME signal input PIN)`, `(def NAME register)`",
        _ => "",
    }
}
