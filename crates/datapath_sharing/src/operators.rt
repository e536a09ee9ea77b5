//! Words of numbers, and words and lifted bits of operators. Equal ones share their nets.

ghost use Rattle.std.specs.Prelude.{◌≡◌, ◌≢◌, ◌<◌, true, false, OnOk, length};
ghost use Rattle.mp_base.specs.declared.op.Op.TheVariants as ops;
ghost use Rattle.rtl_form.specs.Cost.{op_cost};
ghost use Rattle.rtl_form.specs.Operands.{gives_word, takes_words};
ghost use Rattle.rtl_form.specs.declared.rtl.RtlExpr.TheVariants as exprs;
ghost use Rattle.datapath_making.specs.Sizes.{HasRoom};
ghost use Rattle.datapath_making.specs.Steps.{IsFree, IsNumberMade, IsOperatorMade, IsStep, IsTestMade};
ghost use Rattle.datapath_making.specs.WellMade.{IsWellMade};
ghost use Rattle.datapath_sharing.specs.Asking.{IsAnswered, IsAsked, IsLifted};
ghost use Rattle.datapath_sharing.specs.Sharing.{AreBuilt, IsShared};

use crate::built::Built;
use crate::words::{add_lift, last_lift, net_of, share_word};
use datapath_making::Making;
use datapath_steps::{add_bit, add_test};
use mp_base::{NoMemory, Op};
use std::alloc::Global;

// Whether an operator gives a word.
fn is_word(op: Op) -> bool
    ensures { result ≡ gives_word op }
{
    match op {
        Op::And => false,
        Op::Or => false,
        Op::Nor => false,
        Op::Nand => false,
        Op::Xor => false,
        Op::Not => false,
        Op::Bit => false,
        Op::Zero => false,
        Op::Equal => false,
        Op::Less => false,
        _ => true,
    }
}

// Whether its operands are words.
fn has_words(op: Op) -> bool
    ensures { result ≡ takes_words op }
{
    match op {
        Op::And => false,
        Op::Or => false,
        Op::Nor => false,
        Op::Nand => false,
        Op::Xor => false,
        Op::Not => false,
        _ => true,
    }
}

/// The word of a number.
///
/// # Errors
///
/// `NoMemory`: then a net may have been added.
pub fn add_number(
    making: &mut Making,
    built: &mut Built,
    expr: u32,
    bits: u64,
) -> Result<(), NoMemory>
    requires made { IsWellMade making.old }
    requires room { HasRoom 1 making.old }
    requires free { IsFree making.old.words expr }
    requires built { AreBuilt built.old making.old.slices }
    ensures step { OnOk result (IsStep 1 0 making.old making.new) }
    ensures number { OnOk result (IsNumberMade expr bits making.old making.new) }
    ensures shared { OnOk result (IsShared expr (exprs.Number bits) built.old built.new making.old making.new) }
{
    match built.number(bits) {
        Some(word) => {
            share_word(making, expr, word);
            Ok(())
        }
        None => {
            datapath_steps::add_number(making, expr, bits)?;
            let word = net_of(making.words.as_slice(), expr);
            built.note_number(bits, word)
        }
    }
}

// The word of an operator that gives one.
fn add_word(
    alloc: Global,
    making: &mut Making,
    built: &mut Built,
    expr: u32,
    op: Op,
    index: u64,
    args: &[u32],
) -> Result<(), NoMemory>
    requires asked { IsAsked making.old expr op index args.now }
    requires word { gives_word op ≡ true }
    requires words { takes_words op ≡ true }
    requires built { AreBuilt built.old making.old.slices }
    ensures step { OnOk result (IsStep (op_cost op (length args.now)) 0 making.old making.new) }
    ensures operator { OnOk result (IsOperatorMade expr op args.now making.old making.new) }
    ensures shared { OnOk result
        (IsShared expr (exprs.Apply op index args.now) built.old built.new making.old making.new) }
{
    let first = net_of(making.words.as_slice(), args[0]);
    let last = net_of(making.words.as_slice(), args[args.len() - 1]);
    match built.operator(op, first, last) {
        Some(word) => {
            share_word(making, expr, word);
            Ok(())
        }
        None => {
            datapath_steps::add_operator(alloc, making, expr, op, args)?;
            let word = net_of(making.words.as_slice(), expr);
            built.note_operator(op, first, last, word)
        }
    }
}

// The answer of a test of words.
fn add_answer(
    alloc: Global,
    making: &mut Making,
    built: &mut Built,
    expr: u32,
    op: Op,
    index: u64,
    args: &[u32],
) -> Result<(), NoMemory>
    requires asked { IsAsked making.old expr op index args.now }
    requires bit { gives_word op ≡ false }
    requires words { takes_words op ≡ true }
    requires test { op ≢ ops.Bit }
    requires built { AreBuilt built.old making.old.slices }
    ensures step { OnOk result (IsStep (op_cost op (length args.now)) 1 making.old making.new) }
    ensures test { OnOk result (IsTestMade expr op args.now making.old making.new) }
    ensures shared { OnOk result
        (IsShared expr (exprs.Apply op index args.now) built.old built.new making.old making.new) }
{
    let first = net_of(making.words.as_slice(), args[0]);
    let last = net_of(making.words.as_slice(), args[args.len() - 1]);
    match built.operator(op, first, last) {
        Some(from) => add_lift(making, expr, from),
        None => {
            add_test(alloc, making, expr, op, args)?;
            let lift = last_lift(making.lifts.as_slice());
            built.note_operator(op, first, last, lift.from)
        }
    }
}

// A bit of a word, or the answer of a test of words.
fn add_lifted(
    alloc: Global,
    making: &mut Making,
    built: &mut Built,
    expr: u32,
    op: Op,
    index: u64,
    args: &[u32],
) -> Result<(), NoMemory>
    requires asked { IsAsked making.old expr op index args.now }
    requires bit { gives_word op ≡ false }
    requires words { takes_words op ≡ true }
    requires built { AreBuilt built.old making.old.slices }
    ensures lifted { OnOk result (IsLifted expr op index args.now making.old making.new) }
    ensures shared { OnOk result
        (IsShared expr (exprs.Apply op index args.now) built.old built.new making.old making.new) }
{
    match op {
        Op::Bit => add_bit(making, expr, index, args[0]),
        _ => add_answer(alloc, making, built, expr, op, index, args),
    }
}

/// The word of an operator, or the bit that it gives of words.
///
/// # Errors
///
/// `NoMemory`: then some of the nets may have been added.
pub fn add_operator(
    alloc: Global,
    making: &mut Making,
    built: &mut Built,
    expr: u32,
    op: Op,
    index: u64,
    args: &[u32],
) -> Result<(), NoMemory>
    requires asked { IsAsked making.old expr op index args.now }
    requires built { AreBuilt built.old making.old.slices }
    ensures answered { OnOk result (IsAnswered expr op index args.now making.old making.new) }
    ensures shared { OnOk result
        (IsShared expr (exprs.Apply op index args.now) built.old built.new making.old making.new) }
{
    if is_word(op) {
        add_word(alloc, making, built, expr, op, index, args)
    } else if has_words(op) {
        add_lifted(alloc, making, built, expr, op, index, args)
    } else {
        Ok(())
    }
}
