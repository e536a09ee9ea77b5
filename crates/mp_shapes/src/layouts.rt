//! The shape of a node that has to be of a class.

ghost use Rattle.std.specs.Prelude.{◌≡◌, ◌<◌, ℕ, length, slice_index, All};
ghost use Rattle.std.specs.List.{list_all};
ghost use Rattle.form_reader.specs.Sound.{IsSound, kind_at, items_of};
ghost use Rattle.mp_shapes.specs.Layout.{word_of, is_symbol, is_number, is_pins, is_symbols, supply_of, stored_of};
ghost use Rattle.mp_shapes.specs.Layout.{three, four};
ghost use Rattle.mp_shapes.specs.Layout.{internal, way, five, definition, item_layout, form_layout, word_op};
ghost use Rattle.mp_shapes.specs.Layout.{bit_op, op_of, takes, value_layout, list_layout, number_layout};
ghost use Rattle.mp_shapes.specs.Layout.{symbol_layout, layout, when, behind_head, behind_first, behind_number};
ghost use Rattle.mp_shapes.specs.Layout.{applied, item_class};

use crate::table::{Class, Definition, Layout};
use form_reader::{Forms, Kind};
use mp_base::Op;

fn kind_at(forms: &Forms, node: u32) -> &Kind
    requires { node < length forms.now.nodes }
    ensures { result.now ≡ kind_at forms.now node }
{
    &forms.nodes.at(node).kind
}

/// The items of a node, none where it is no list.
pub fn items_of(forms: &Forms, node: u32) -> &[u32]
    requires { node < length forms.now.nodes }
    ensures { result.now ≡ items_of (kind_at forms.now node) }
{
    match kind_at(forms, node) {
        Kind::Group(items) => items.as_slice(),
        _ => &[],
    }
}

fn word_of(kind: &Kind) -> &[u8]
    ensures { result.now ≡ word_of kind.now }
{
    match kind {
        Kind::Symbol(name) => name.bytes(),
        _ => &[],
    }
}

fn is_symbol(kind: &Kind) -> bool
    ensures { result ≡ is_symbol kind.now }
{
    match kind {
        Kind::Symbol(_) => true,
        _ => false,
    }
}

fn is_number(kind: &Kind) -> bool
    ensures { result ≡ is_number kind.now }
{
    match kind {
        Kind::Number(_) => true,
        _ => false,
    }
}

fn are_numbers(forms: &Forms, items: &[u32]) -> bool
    requires { All (λ i. i < length forms.now.nodes) items.now }
    ensures { result ≡ list_all (λ i. is_number (kind_at forms.now i)) items.now }
{
    items.iter().all(|&item| is_number(kind_at(forms, item)))
}

fn is_pins(forms: &Forms, node: u32) -> bool
    requires sound { IsSound forms.now }
    requires inside { node < length forms.now.nodes }
    ensures { result ≡ is_pins forms.now (kind_at forms.now node) }
{
    match kind_at(forms, node) {
        Kind::Group(items) => items.len() >= 1 && are_numbers(forms, items.as_slice()),
        _ => false,
    }
}

fn are_symbols(forms: &Forms, items: &[u32]) -> bool
    requires { All (λ i. i < length forms.now.nodes) items.now }
    ensures { result ≡ list_all (λ i. is_symbol (kind_at forms.now i)) items.now }
{
    items.iter().all(|&item| is_symbol(kind_at(forms, item)))
}

fn is_symbols(forms: &Forms, node: u32) -> bool
    requires sound { IsSound forms.now }
    requires inside { node < length forms.now.nodes }
    ensures { result ≡ is_symbols forms.now (kind_at forms.now node) }
{
    match kind_at(forms, node) {
        Kind::Group(items) => items.len() >= 1 && are_symbols(forms, items.as_slice()),
        _ => false,
    }
}

fn supply_of(word: &[u8]) -> Option<Definition>
    ensures { result ≡ supply_of word.now }
{
    if word == b"power".as_slice() {
        Some(Definition::Power)
    } else if word == b"ground".as_slice() {
        Some(Definition::Ground)
    } else if word == b"phia".as_slice() {
        Some(Definition::Phia)
    } else if word == b"phib".as_slice() {
        Some(Definition::Phib)
    } else if word == b"phic".as_slice() {
        Some(Definition::Phic)
    } else {
        None
    }
}

fn stored_of(word: &[u8]) -> Option<Definition>
    ensures { result ≡ stored_of word.now }
{
    if word == b"register".as_slice() {
        Some(Definition::Register)
    } else if word == b"flag".as_slice() {
        Some(Definition::Flag)
    } else {
        None
    }
}

fn three(name: &Kind, what: &Kind) -> Option<Definition>
    ensures { result ≡ three name.now what.now }
{
    match name {
        Kind::Number(_) => supply_of(word_of(what)),
        Kind::Symbol(_) => stored_of(word_of(what)),
        Kind::Group(_) => None,
    }
}

fn internal(what: &[u8]) -> Option<Definition>
    ensures { result ≡ internal what.now }
{
    if what == b"port".as_slice() {
        Some(Definition::PortInternal)
    } else if what == b"signal".as_slice() {
        Some(Definition::SignalInternal)
    } else {
        None
    }
}

fn four(name: &Kind, what: &Kind, last: &Kind) -> Option<Definition>
    ensures { result ≡ four name.now what.now last.now }
{
    if !is_symbol(name) {
        return None;
    }
    let what = word_of(what);
    if what == b"constant".as_slice() {
        if is_number(last) {
            Some(Definition::Constant)
        } else {
            None
        }
    } else if word_of(last) == b"internal".as_slice() {
        internal(what)
    } else {
        None
    }
}

fn way(word: &[u8], inward: Definition, outward: Definition) -> Option<Definition>
    ensures { result ≡ way word.now inward outward }
{
    if word == b"input".as_slice() {
        Some(inward)
    } else if word == b"output".as_slice() {
        Some(outward)
    } else {
        None
    }
}

fn five(forms: &Forms, name: &Kind, what: &Kind, named: u32, last: u32) -> Option<Definition>
    requires sound { IsSound forms.now }
    requires named { named < length forms.now.nodes }
    requires inside { last < length forms.now.nodes }
    ensures { result ≡ five forms.now name.now what.now (kind_at forms.now named) (kind_at forms.now last) }
{
    if !is_symbol(name) {
        return None;
    }
    let what = word_of(what);
    let word = word_of(kind_at(forms, named));
    if what == b"port".as_slice() {
        if is_pins(forms, last) {
            way(word, Definition::PortInput, Definition::PortOutput)
        } else {
            None
        }
    } else if what == b"signal".as_slice() {
        if is_number(kind_at(forms, last)) {
            way(word, Definition::SignalInput, Definition::SignalOutput)
        } else {
            None
        }
    } else if what == b"function".as_slice() && is_symbols(forms, named) {
        Some(Definition::Function)
    } else {
        None
    }
}

fn definition(forms: &Forms, items: &[u32]) -> Option<Definition>
    requires sound { IsSound forms.now }
    requires inside { (k : ℕ) → k < length items.now → slice_index items.now k < length forms.now.nodes }
    ensures { result ≡ definition forms.now items.now }
{
    let count = items.len();
    if count == 3 {
        three(kind_at(forms, items[1]), kind_at(forms, items[2]))
    } else if count == 4 {
        four(
            kind_at(forms, items[1]),
            kind_at(forms, items[2]),
            kind_at(forms, items[3]),
        )
    } else if count == 5 {
        five(
            forms,
            kind_at(forms, items[1]),
            kind_at(forms, items[2]),
            items[3],
            items[4],
        )
    } else {
        None
    }
}

fn item_layout(forms: &Forms, head: &[u8], items: &[u32]) -> Option<Layout>
    requires sound { IsSound forms.now }
    requires inside { (k : ℕ) → k < length items.now → slice_index items.now k < length forms.now.nodes }
    ensures { result ≡ item_layout forms.now head.now items.now }
{
    if head == b"def".as_slice() {
        match definition(forms, items) {
            Some(definition) => Some(Layout::Def(definition)),
            None => None,
        }
    } else if head == b"always".as_slice() {
        when(items.len() >= 2, Layout::Always)
    } else {
        when(
            head == b"process".as_slice() && items.len() >= 3,
            Layout::Process,
        )
    }
}

fn when(test: bool, layout: Layout) -> Option<Layout>
    ensures { result ≡ when test layout }
{
    if test { Some(layout) } else { None }
}

fn form_layout(head: &[u8], count: usize) -> Option<Layout>
    ensures { result ≡ form_layout head.now count }
{
    if head == b"setq".as_slice() {
        when(count == 3, Layout::Setq)
    } else if head == b"cond".as_slice() {
        when(count >= 2, Layout::Cond)
    } else if head == b"par".as_slice() {
        when(count >= 2, Layout::Par)
    } else if head == b"go".as_slice() {
        when(count == 2, Layout::Go)
    } else if head == b"call".as_slice() {
        when(count == 2, Layout::Call)
    } else {
        when(head == b"return".as_slice() && count == 1, Layout::Return)
    }
}

fn word_op(name: &[u8]) -> Option<Op>
    ensures { result ≡ word_op name.now }
{
    if name == b"+".as_slice() {
        Some(Op::Add)
    } else if name == b"-".as_slice() {
        Some(Op::Sub)
    } else if name == b"1+".as_slice() {
        Some(Op::Inc)
    } else if name == b"1-".as_slice() {
        Some(Op::Dec)
    } else if name == b"word-and".as_slice() {
        Some(Op::WordAnd)
    } else if name == b"word-or".as_slice() {
        Some(Op::WordOr)
    } else if name == b"word-xor".as_slice() {
        Some(Op::WordXor)
    } else if name == b"word-not".as_slice() {
        Some(Op::WordNot)
    } else if name == b"<<".as_slice() {
        Some(Op::Left)
    } else if name == b">>".as_slice() {
        Some(Op::Right)
    } else {
        None
    }
}

fn bit_op(name: &[u8]) -> Option<Op>
    ensures { result ≡ bit_op name.now }
{
    if name == b"and".as_slice() {
        Some(Op::And)
    } else if name == b"or".as_slice() {
        Some(Op::Or)
    } else if name == b"nor".as_slice() {
        Some(Op::Nor)
    } else if name == b"nand".as_slice() {
        Some(Op::Nand)
    } else if name == b"xor".as_slice() {
        Some(Op::Xor)
    } else if name == b"not".as_slice() {
        Some(Op::Not)
    } else if name == b"=0".as_slice() {
        Some(Op::Zero)
    } else if name == b"=".as_slice() {
        Some(Op::Equal)
    } else if name == b"<".as_slice() {
        Some(Op::Less)
    } else {
        None
    }
}

/// The operator of a name, where all its operands are expressions: any but `bit`.
pub fn op_of(name: &[u8]) -> Option<Op>
    ensures { result ≡ op_of name.now }
{
    match word_op(name) {
        Some(op) => Some(op),
        None => bit_op(name),
    }
}

/// Whether a list of this many items, the head included, has the operands of an operator.
fn takes(op: Op, count: usize) -> bool
    ensures { result ≡ takes op count }
{
    match op {
        Op::Inc | Op::Dec | Op::WordNot | Op::Left | Op::Right | Op::Not | Op::Zero => count == 2,
        Op::And | Op::Or | Op::Nor | Op::Nand => count >= 2,
        _ => count == 3,
    }
}

fn applied(op: Option<Op>, head: &[u8], count: usize) -> Option<Layout>
    ensures { result ≡ applied op head.now count }
{
    match op {
        Some(op) => when(takes(op, count), Layout::Apply(op)),
        None => when(head.len() != 0 && count >= 2, Layout::Use),
    }
}

fn value_layout(head: &[u8], count: usize) -> Option<Layout>
    ensures { result ≡ value_layout head.now count }
{
    if head == b"bit".as_slice() {
        return when(count == 3, Layout::Bit);
    }
    applied(op_of(head), head, count)
}

fn list_layout(forms: &Forms, class: Class, head: &[u8], items: &[u32]) -> Option<Layout>
    requires sound { IsSound forms.now }
    requires inside { (k : ℕ) → k < length items.now → slice_index items.now k < length forms.now.nodes }
    ensures { result ≡ list_layout forms.now class head.now items.now }
{
    match class {
        Class::Whole => when(
            head == b"program".as_slice() && items.len() >= 3,
            Layout::Program,
        ),
        Class::Item => item_layout(forms, head, items),
        Class::Element => form_layout(head, items.len()),
        Class::Action => form_layout(head, items.len()),
        Class::Branch => Some(Layout::Guarded),
        Class::Value => value_layout(head, items.len()),
        Class::Word => None,
        Class::Numeral => None,
    }
}

fn number_layout(class: Class) -> Option<Layout>
    ensures { result ≡ number_layout class }
{
    match class {
        Class::Value | Class::Numeral => Some(Layout::Leaf),
        _ => None,
    }
}

fn symbol_layout(class: Class) -> Option<Layout>
    ensures { result ≡ symbol_layout class }
{
    match class {
        Class::Element | Class::Value | Class::Word => Some(Layout::Leaf),
        _ => None,
    }
}

/// The shape of a node that has to be of a class, or `None` where it has a defect of its own.
pub fn shape_of(forms: &Forms, class: Class, node: u32) -> Option<Layout>
    requires sound { IsSound forms.now }
    requires inside { node < length forms.now.nodes }
    ensures { result ≡ layout forms.now class (kind_at forms.now node) }
{
    match kind_at(forms, node) {
        Kind::Number(_) => number_layout(class),
        Kind::Symbol(_) => symbol_layout(class),
        Kind::Group(items) => {
            let items = items.as_slice();
            if items.is_empty() {
                return None;
            }
            let head = word_of(kind_at(forms, items[0]));
            list_layout(forms, class, head, items)
        }
    }
}

fn behind_head(index: usize, class: Class) -> Option<Class>
    ensures { result ≡ behind_head index class }
{
    if index == 0 { None } else { Some(class) }
}

fn behind_first(index: usize, first: Class, rest: Class) -> Option<Class>
    ensures { result ≡ behind_first index first rest }
{
    if index == 0 {
        None
    } else if index == 1 {
        Some(first)
    } else {
        Some(rest)
    }
}

fn behind_number(index: usize, rest: Class) -> Option<Class>
    ensures { result ≡ behind_number index rest }
{
    if index == 0 {
        None
    } else if index == 1 {
        Some(Class::Word)
    } else if index == 2 {
        Some(Class::Numeral)
    } else {
        Some(rest)
    }
}

/// What the item of a list at an index has to be; `None` for a head and for items that stand for nothing further.
pub fn item_class(layout: Layout, index: usize) -> Option<Class>
    ensures { result ≡ item_class layout index }
{
    match layout {
        Layout::Program => behind_number(index, Class::Item),
        Layout::Process => behind_number(index, Class::Element),
        Layout::Always => behind_head(index, Class::Action),
        Layout::Par => behind_head(index, Class::Action),
        Layout::Cond => behind_head(index, Class::Branch),
        Layout::Go => behind_head(index, Class::Word),
        Layout::Call => behind_head(index, Class::Word),
        Layout::Apply(_) | Layout::Use => behind_head(index, Class::Value),
        Layout::Setq => behind_first(index, Class::Word, Class::Value),
        Layout::Bit => behind_first(index, Class::Numeral, Class::Value),
        Layout::Guarded => Some(if index == 0 {
            Class::Value
        } else {
            Class::Action
        }),
        Layout::Def(Definition::Function) if index == 4 => Some(Class::Value),
        Layout::Leaf | Layout::Def(_) | Layout::Return => None,
    }
}
