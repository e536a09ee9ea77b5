//! The templates of expressions.

ghost use Rattle.std.specs.Prelude.{◌≡◌, ◌∷◌, [], ℕ, ◌<◌, Contains, List as Items, Some, None, length};
ghost use Rattle.mp_base.specs.declared.refusal.Place.{Place};
ghost use Rattle.mp_base.specs.declared.op.Op.{Op};
ghost use Rattle.mp_written.specs.declared.program.ExprKind.TheVariants.{Apply, Use};
ghost use Rattle.expansion.specs.Templates.{AreFound, IsFound, IsKind, IsReady, IsTemplate};
ghost use Rattle.expansion.specs.Leaves.{own_place, IsLeafWord};

use crate::filling::{append, fill, mentioned, push};
use crate::item::{Item, Slot, Stop};
use mp_base::List;
use mp_written::laws::sound;
use mp_written::{ExprKind, Program};
use std::alloc::Global;
use written_meanings::Meanings;

/// Whose place an expression has: outside of bodies its own.
fn own_place(owner: Option<u32>, expr: u32) -> Option<u32>
    ensures { result ≡ own_place owner expr }
{
    match owner {
        Some(_) => None,
        None => Some(expr),
    }
}

/// The template of an expression in the body of a function, or outside of bodies.
#[cycle(words)]
pub(crate) fn word(
    alloc: Global,
    program: &Program,
    meanings: &Meanings,
    slots: &List<Slot>,
    owner: Option<u32>,
    expr: u32,
) -> Result<List<Item>, Stop>
    requires { IsReady program.now meanings.now slots.now owner expr }
    ensures { IsFound program.now owner expr result }
{
    match &program.exprs.at(expr).kind {
        ExprKind::Apply { args, .. } => {
            let args = args.as_slice();
            operator_word(alloc, program, meanings, slots, owner, expr, args)
        }
        ExprKind::Use { args, .. } => {
            let args = args.as_slice();
            use_word(alloc, program, meanings, slots, owner, expr, args)
        }
        _ => {
            let argument = meanings.exprs.at(expr).argument;
            leaf_word(alloc, owner, expr, argument)
        }
    }
}

/// The template of an expression without operands, which is an argument or not.
fn leaf_word(
    alloc: Global,
    owner: Option<u32>,
    expr: u32,
    argument: Option<u32>,
) -> Result<List<Item>, Stop>
    ensures { IsLeafWord owner expr argument result }
{
    let item = match argument {
        Some(argument) => Item::Argument(argument),
        None => Item::Copied {
            expr,
            at: own_place(owner, expr),
        },
    };
    let mut items = List::new(alloc);
    items.push(item)?;
    Ok(items)
}

/// The template of an operator with its operands.
#[cycle(words)]
fn operator_word(
    alloc: Global,
    program: &Program,
    meanings: &Meanings,
    slots: &List<Slot>,
    owner: Option<u32>,
    expr: u32,
    args: &[u32],
) -> Result<List<Item>, Stop>
    requires ready { IsReady program.now meanings.now slots.now owner expr }
    requires kind { (op : Op) × (index : ℕ) × IsKind program.now expr (Apply op index args.now) }
    ensures { IsFound program.now owner expr result }
{
    sound();
    let mut items = leaf_word(alloc, owner, expr, None)?;
    for arg in args {
        let operand = word(alloc, program, meanings, slots, owner, *arg)?;
        append(&mut items, operand.as_slice())?;
    }
    Ok(items)
}

/// The template of a use. That of its function is made, if it isn't at hand.
#[cycle(words)]
fn use_word(
    alloc: Global,
    program: &Program,
    meanings: &Meanings,
    slots: &List<Slot>,
    owner: Option<u32>,
    expr: u32,
    args: &[u32],
) -> Result<List<Item>, Stop>
    requires ready { IsReady program.now meanings.now slots.now owner expr }
    requires kind { (at : Place) × (name : Items ℕ) × IsKind program.now expr (Use at name args.now) }
    ensures { IsFound program.now owner expr result }
{
    let Some(function) = meanings.exprs.at(expr).function else {
        return Ok(List::new(alloc));
    };
    match slots.at(function) {
        Slot::Made(template) => {
            let template = template.as_slice();
            filled_word(alloc, program, meanings, slots, owner, expr, args, template)
        }
        Slot::TooMany => Err(Stop::TooLong),
        Slot::Unmade => {
            let body = meanings.bodies.at(function).expr;
            let template = word(alloc, program, meanings, slots, Some(function), body)?;
            let template = template.as_slice();
            filled_word(alloc, program, meanings, slots, owner, expr, args, template)
        }
    }
}

/// The template of a use: that of its function, with those of the operands.
#[cycle(words)]
fn filled_word(
    alloc: Global,
    program: &Program,
    meanings: &Meanings,
    slots: &List<Slot>,
    owner: Option<u32>,
    expr: u32,
    args: &[u32],
    template: &[Item],
) -> Result<List<Item>, Stop>
    requires ready { IsReady program.now meanings.now slots.now owner expr }
    requires kind { (at : Place) × (name : Items ℕ) × IsKind program.now expr (Use at name args.now) }
    requires template { IsTemplate program.now owner expr args.now template.now }
    ensures { IsFound program.now owner expr result }
{
    let words = operand_words(alloc, program, meanings, slots, owner, expr, args, template)?;
    let mut items = List::new(alloc);
    fill(
        template,
        own_place(owner, expr),
        words.as_slice(),
        &mut items,
    )?;
    Ok(items)
}

/// The templates of the operands that a template mentions. The others are neither walked nor made.
#[cycle(words)]
fn operand_words(
    alloc: Global,
    program: &Program,
    meanings: &Meanings,
    slots: &List<Slot>,
    owner: Option<u32>,
    expr: u32,
    args: &[u32],
    template: &[Item],
) -> Result<List<List<Item>>, Stop>
    requires ready { IsReady program.now meanings.now slots.now owner expr }
    requires kind { (at : Place) × (name : Items ℕ) × IsKind program.now expr (Use at name args.now) }
    ensures { AreFound program.now owner template.now args.now result }
{
    sound();
    let mentioned = mentioned(alloc, template, args.len())?;
    let mut words = List::new(alloc);
    for (i, arg) in args.iter().enumerate() {
        let word = if mentioned.as_slice()[i] {
            word(alloc, program, meanings, slots, owner, *arg)?
        } else {
            List::new(alloc)
        };
        words.push(word)?;
    }
    Ok(words)
}
