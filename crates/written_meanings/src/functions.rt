//! The functions of a program.

ghost use Rattle.std.specs.Prelude.{◌≡◌, ◌∷◌, ◌++◌, [], ℕ, List, IfOk, OnOk, map};
ghost use Rattle.std.specs.List.{filter_map};
ghost use Rattle.mp_written.specs.declared.program.Arg.{Arg};
ghost use Rattle.mp_written.specs.declared.program.Def.{Def};
ghost use Rattle.mp_written.specs.Functions.{Function, function_of, arg_index};
ghost use Rattle.written_meanings.specs.Firsts.{AreFirsts};

use crate::firsts::Firsts;
use mp_base::{List, Name};
use mp_written::{Arg, Def, ExprKind, What};
use std::alloc::{AllocError, Global};

/// The body of a function.
#[derive(Clone, Copy)]
pub struct Body {
    /// How many arguments the function has.
    pub args: u32,
    /// The index of the expression.
    pub expr: u32,
}

// The numbers of arguments by name.
fn args_by_name<'a>(alloc: Global, args: &'a [Arg]) -> Result<Firsts<'a>, AllocError>
    ensures { IfOk result (AreFirsts (map (λ (a : Arg). a.name) args.now)) }
{
    let mut firsts = Firsts::new(alloc);
    for (number, arg) in args.iter().enumerate() {
        let Ok(number) = u32::try_from(number) else {
            return Err(AllocError);
        };
        firsts.note(arg.name.bytes(), number)?;
    }
    Ok(firsts)
}

/// Functions in the order of their definitions: their numbers by name, their bodies, and the numbers of their arguments
/// by name.
#[derive(Drop)]
pub struct Functions<'a> {
    numbers: Firsts<'a>,
    pub bodies: List<Body>,
    args: List<Firsts<'a>>,
}

impl<'a> Functions<'a> {
    ghost use Rattle.written_meanings.specs.Functions.{AreFunctions};
    ghost use Rattle.written_meanings.specs.Meanings.{argument, args_around, used, usable};

    fn new(alloc: Global) -> Functions<'a>
        ensures { AreFunctions [] result }
    {
        Functions {
            numbers: Firsts::new(alloc),
            bodies: List::new(alloc),
            args: List::new(alloc),
        }
    }

    // Adds a function of a name, with these arguments and this body.
    fn add(
        &mut self,
        alloc: Global,
        name: &'a Name,
        args: &'a List<Arg>,
        expr: u32,
    ) -> Result<(), AllocError>
        ensures { OnOk result ((fs : List Function) (f : Function) → f.name ≡ name.now → f.args ≡ args.now
            → f.body ≡ expr → AreFunctions fs self.old → AreFunctions (fs ++ f ∷ []) self.new) }
    {
        let Ok(number) = u32::try_from(self.bodies.len()) else {
            return Err(AllocError);
        };
        let Ok(count) = u32::try_from(args.len()) else {
            return Err(AllocError);
        };
        self.numbers.note(name.bytes(), number)?;
        self.bodies.push(Body { args: count, expr })?;
        self.args.push(args_by_name(alloc, args.as_slice())?)?;
        Ok(())
    }

    // Adds a definition, if it is a function.
    fn note(&mut self, alloc: Global, def: &'a Def) -> Result<(), AllocError>
        ensures { OnOk result ((ds : List Def)
            → AreFunctions (filter_map (λ (d : Def). function_of d d.what) ds) self.old
            → AreFunctions (filter_map (λ (d : Def). function_of d d.what) (ds ++ def.now ∷ [])) self.new) }
    {
        match &def.what {
            What::Function { args, body } => self.add(alloc, &def.name, args, *body),
            _ => Ok(()),
        }
    }

    /// The functions among definitions.
    pub fn of(alloc: Global, defs: &'a [Def]) -> Result<Functions<'a>, AllocError>
        ensures { IfOk result (AreFunctions (filter_map (λ (d : Def). function_of d d.what) defs.now)) }
    {
        let mut functions = Functions::new(alloc);
        for def in defs {
            functions.note(alloc, def)?;
        }
        Ok(functions)
    }

    /// Which argument of the body around it an expression is.
    pub fn argument(&self, owner: Option<u32>, kind: &ExprKind) -> Option<u32>
        ensures { (fs : List Function) → AreFunctions fs self.now
            → result ≡ argument (args_around fs owner) kind.now }
    {
        let ExprKind::Named(name) = kind else {
            return None;
        };
        self.args
            .as_slice()
            .get(owner? as usize)?
            .number(name.bytes())
    }

    /// Which function an expression uses: in a body only an earlier one may be used.
    pub fn used(&self, owner: Option<u32>, kind: &ExprKind) -> Option<u32>
        ensures { (fs : List Function) → AreFunctions fs self.now → result ≡ used (usable fs owner) kind.now }
    {
        let ExprKind::Use { name, .. } = kind else {
            return None;
        };
        let function = self.numbers.number(name.bytes())?;
        match owner {
            Some(owner) if owner <= function => None,
            _ => Some(function),
        }
    }
}
