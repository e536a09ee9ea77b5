//! Who needs functions and their arguments: an operand for an argument that the body drops isn't looked at. This spares
//! templates, and no answer depends on it.

ghost use Rattle.std.specs.Prelude.{◌≡◌, ◌<◌, length, slice_index};
ghost use Rattle.mp_written.specs.Tree.{operands};
ghost use Rattle.written_meanings.specs.Meanings.{AreMeanings};

use crate::flags::tops;
use mp_base::List;
use mp_written::laws::sound;
use mp_written::{ExprKind, Program};
use std::alloc::{AllocError, Global};
use written_meanings::Meanings;

/// For each argument of one function whether it is needed, and for each function its last user: a function that needs
/// it has one more than its number, guards and values have one more than that of the last function, and 0 is nobody.
#[derive(Drop)]
struct Needs {
    args: List<bool>,
    users: List<u32>,
}

/// Notes that an argument is needed.
fn note_argument(args: &mut List<bool>, argument: Option<u32>) {
    if let Some(argument) = argument {
        let argument = argument as usize;
        if argument < args.len() {
            args.put(argument, true);
        }
    }
}

/// Notes the user of a function, unless a later one is noted.
fn note_user(users: &mut List<u32>, function: Option<u32>, user: u32) {
    if let Some(function) = function {
        let function = function as usize;
        if function < users.len() && users.as_slice()[function] == 0 {
            users.put(function, user);
        }
    }
}

/// The number at an index, 0 past the end.
pub(crate) fn read(numbers: &[u32], index: u32) -> u32
    ensures { result ≡ slice_index numbers.now index }
{
    let index = index as usize;
    if index < numbers.len() {
        numbers[index]
    } else {
        0
    }
}

fn operands(kind: &ExprKind) -> &[u32]
    ensures { result.now ≡ operands kind.now }
{
    match kind {
        ExprKind::Apply { args, .. } => args.as_slice(),
        ExprKind::Use { args, .. } => args.as_slice(),
        _ => &[],
    }
}

/// Whether an operand of an expression is needed, where these arguments of functions are.
fn passes(args: &List<List<bool>>, function: Option<u32>, operand: usize) -> bool {
    let Some(function) = function else {
        return true;
    };
    let args = args.as_slice();
    let function = function as usize;
    if function >= args.len() {
        return true;
    }
    let flags = args[function].as_slice();
    operand < flags.len() && flags[operand]
}

/// Notes what an expression needs.
fn visit(
    program: &Program,
    meanings: &Meanings,
    args: &List<List<bool>>,
    expr: u32,
    user: u32,
    needs: &mut Needs,
)
    requires inside { expr < length program.now.exprs }
    requires many { length meanings.now.exprs ≡ length program.now.exprs }
{
    sound();
    let meaning = meanings.exprs.at(expr);
    note_argument(&mut needs.args, meaning.argument);
    note_user(&mut needs.users, meaning.function, user);
    let operands = operands(&program.exprs.at(expr).kind);
    for (i, operand) in operands.iter().enumerate() {
        if passes(args, meaning.function, i) {
            visit(program, meanings, args, *operand, user, needs);
        }
    }
}

/// For each function, which of its arguments its body needs.
fn needed_args(
    alloc: Global,
    program: &Program,
    meanings: &Meanings,
) -> Result<List<List<bool>>, AllocError>
    requires { AreMeanings program.now meanings.now }
{
    sound();
    let mut args = List::new(alloc);
    for body in meanings.bodies.as_slice() {
        let mut needs = Needs {
            args: List::from_vec(Vec::from_elem(alloc, false, body.args as usize)?),
            users: List::new(alloc),
        };
        visit(program, meanings, &args, body.expr, 0, &mut needs);
        args.push(needs.args)?;
    }
    Ok(args)
}

/// For each function its last user among guards and values and the bodies of functions that are needed: one more than
/// the number of a function, more than that of the last for guards and values, and 0 where nobody needs it.
pub(crate) fn last_users(
    alloc: Global,
    program: &Program,
    meanings: &Meanings,
) -> Result<List<u32>, AllocError>
    requires { AreMeanings program.now meanings.now }
{
    sound();
    let args = needed_args(alloc, program, meanings)?;
    let tops = tops(alloc, program)?;
    let mut needs = Needs {
        args: List::new(alloc),
        users: List::from_vec(Vec::from_elem(alloc, 0, meanings.bodies.len())?),
    };
    let Ok(functions) = u32::try_from(meanings.bodies.len()) else {
        return Err(AllocError);
    };
    let Ok(exprs) = u32::try_from(program.exprs.len()) else {
        return Err(AllocError);
    };
    let outside = functions.checked_add(1).ok_or(AllocError)?;
    for expr in 0..exprs {
        if *tops.at(expr) {
            visit(program, meanings, &args, expr, outside, &mut needs);
        }
    }
    for function in (0..functions).rev() {
        if read(needs.users.as_slice(), function) > 0 {
            let body = meanings.bodies.at(function).expr;
            visit(program, meanings, &args, body, function + 1, &mut needs);
        }
    }
    Ok(needs.users)
}
