//! Words and bits of expressions.

ghost use Rattle.std.specs.Prelude.{◌≡◌, ◌≢◌, ◌<◌, IfOk, OnOk, All, Some, true, false, length};
ghost use Rattle.mp_base.specs.declared.op.Op.TheVariants as ops;
ghost use Rattle.nor_net.specs.declared.net.NetId as net_id;
ghost use Rattle.organelles.specs.Tables.{op_of};
ghost use Rattle.control_nor.specs.Lowering.{Stands};
ghost use Rattle.rtl_form.specs.Cost.{op_cost};
ghost use Rattle.rtl_form.specs.Operands.{gives_word, takes_words};
ghost use Rattle.mp_base.specs.Apply.{takes};
ghost use Rattle.datapath_making.specs.Sizes.{HasRoom};
ghost use Rattle.datapath_making.specs.Steps.{IsBitMade, IsFree, IsNumberMade, IsOperatorAdded, IsOperatorMade};
ghost use Rattle.datapath_making.specs.Steps.{IsReached, IsStep, IsTestMade, IsWaited, read_cell};
ghost use Rattle.datapath_making.specs.WellMade.{IsWellMade};

use datapath_making::{Making, net_of};
use mp_base::{NoMemory, Op};
use nor_net::NetId;
use organelles::{Organelle, Programmed, build};
use path_form::Lift;
use std::alloc::Global;

// The organelle of an operator on words, but for `bit`.
fn organelle_of(op: Op) -> Organelle
    requires words { takes_words op ≡ true }
    requires not_bit { op ≢ ops.Bit }
    ensures { op_of result ≡ op }
{
    match op {
        Op::Add => Organelle::Add,
        Op::Sub => Organelle::Sub,
        Op::Inc => Organelle::Inc,
        Op::Dec => Organelle::Dec,
        Op::WordAnd => Organelle::And,
        Op::WordOr => Organelle::Or,
        Op::WordXor => Organelle::Xor,
        Op::WordNot => Organelle::Not,
        Op::Left => Organelle::Left,
        Op::Right => Organelle::Right,
        Op::Zero => Organelle::Zero,
        Op::Equal => Organelle::Equal,
        _ => Organelle::Less,
    }
}

/// The word of an expression that is a number: a net with its bits.
///
/// # Errors
///
/// `NoMemory`: then some of the nets may have been added.
pub fn add_number(making: &mut Making, expr: u32, bits: u64) -> Result<(), NoMemory>
    requires made { IsWellMade making.old }
    requires room { HasRoom 1 making.old }
    requires free { IsFree making.old.words expr }
    ensures step { OnOk result (IsStep 1 0 making.old making.new) }
    ensures number { OnOk result (IsNumberMade expr bits making.old making.new) }
{
    let net = making.slices.net.input()?;
    making.slices.programs.push(Programmed { net, bits })?;
    making.words.set(expr, Some(net));
    Ok(())
}

/// The word of an expression that is a cell, if that is a word.
pub fn read_cell(making: &mut Making, expr: u32, cell: u32)
    requires made { IsWellMade making.old }
    requires expr { expr < length making.old.words }
    requires cell { cell < length making.old.cell_words }
    ensures read { making.new ≡ read_cell expr cell making.old }
    ensures made { IsWellMade making.new }
{
    let word = *making.cell_words.at(cell);
    making.words.set(expr, word);
}

// The nets of an operator that has an organelle.
fn add_organelle(
    alloc: Global,
    making: &mut Making,
    op: Op,
    args: &[u32],
) -> Result<NetId, NoMemory>
    requires made { IsWellMade making.old }
    requires room { HasRoom 13 making.old }
    requires words { takes_words op ≡ true }
    requires not_bit { op ≢ ops.Bit }
    requires takes { takes op (length args.now) ≡ true }
    requires args { All (IsReached making.old) args.now }
    ensures { IfOk result (IsOperatorAdded op args.now making.old making.new) }
{
    let first = net_of(making.words.as_slice(), args[0]);
    let last = net_of(making.words.as_slice(), args[args.len() - 1]);
    let ports = build(alloc, organelle_of(op), &[first, last], &mut making.slices)?;
    Ok(ports.result)
}

/// The word of an operator's expression.
///
/// # Errors
///
/// `NoMemory`: then some of the nets may have been added.
pub fn add_operator(
    alloc: Global,
    making: &mut Making,
    expr: u32,
    op: Op,
    args: &[u32],
) -> Result<(), NoMemory>
    requires made { IsWellMade making.old }
    requires room { HasRoom 13 making.old }
    requires free { IsFree making.old.words expr }
    requires word { gives_word op ≡ true }
    requires takes { takes op (length args.now) ≡ true }
    requires args { All (IsReached making.old) args.now }
    ensures step { OnOk result (IsStep (op_cost op (length args.now)) 0 making.old making.new) }
    ensures operator { OnOk result (IsOperatorMade expr op args.now making.old making.new) }
{
    let word = add_organelle(alloc, making, op, args)?;
    making.words.set(expr, Some(word));
    Ok(())
}

/// The bit of an expression that tests words: it is lifted into the control from the top slice.
///
/// # Errors
///
/// `NoMemory`: then some of the nets may have been added.
pub fn add_test(
    alloc: Global,
    making: &mut Making,
    expr: u32,
    op: Op,
    args: &[u32],
) -> Result<(), NoMemory>
    requires made { IsWellMade making.old }
    requires room { HasRoom 13 making.old }
    requires wide { 0 < making.old.width }
    requires entry { IsWaited making.old expr }
    requires bit { gives_word op ≡ false }
    requires words { takes_words op ≡ true }
    requires test { op ≢ ops.Bit }
    requires takes { takes op (length args.now) ≡ true }
    requires args { All (IsReached making.old) args.now }
    ensures step { OnOk result (IsStep (op_cost op (length args.now)) 1 making.old making.new) }
    ensures test { OnOk result (IsTestMade expr op args.now making.old making.new) }
{
    let control = net_of(making.names.exprs.as_slice(), expr);
    let from = add_organelle(alloc, making, op, args)?;
    let slice = making.width - 1;
    making.lifts.push(Lift {
        slice,
        from,
        control,
    })?;
    Ok(())
}

/// The bit of an expression that is a bit of a word: it is lifted into the control.
///
/// # Errors
///
/// `NoMemory`: then nothing was added.
pub fn add_bit(making: &mut Making, expr: u32, index: u64, arg: u32) -> Result<(), NoMemory>
    requires made { IsWellMade making.old }
    requires index { index < making.old.width }
    requires entry { IsWaited making.old expr }
    requires arg { IsReached making.old arg }
    ensures step { OnOk result (IsStep 1 1 making.old making.new) }
    ensures bit { OnOk result (IsBitMade expr index arg making.old making.new) }
{
    let control = net_of(making.names.exprs.as_slice(), expr);
    let from = net_of(making.words.as_slice(), arg);
    let width = making.width;
    let slice = index.min(width as u64) as u8;
    making.lifts.push(Lift {
        slice,
        from,
        control,
    })?;
    Ok(())
}
