//! The pads of a program.

ghost use Rattle.std.specs.Prelude.{◌≡◌, ◌≤◌, IfOk};
ghost use Rattle.mp_base.specs.declared.refusal.Place.{Place};
ghost use Rattle.mp_program.specs.Pads.{ArePadsOf, face, pad_width};
ghost use Rattle.mp_rules.specs.Naming.{OwnNames};
ghost use Rattle.mp_rules.specs.Rules.{E20};

use mp_base::{List, Name, Pad, Pads};
use mp_program::{Def, Program, What};
use std::alloc::{AllocError, Global};

fn pad_width(width: u8, what: What) -> u8
    ensures { result ≡ pad_width width what }
{
    match what {
        What::Port(_) => width,
        _ => 0,
    }
}

fn pad_of(alloc: Global, width: u8, def: &Def) -> Result<Pad, AllocError>
    requires { width ≤ 64 }
    ensures { IfOk result (λ pad. face pad ≡ (def.now.name, pad_width width def.now.what)) }
{
    Ok(Pad {
        name: Name::from_slice(alloc, def.name.bytes())?,
        width: pad_width(width, def.what),
    })
}

/// The pads of a program, whose names differ and aren't reserved.
pub fn pads_of(alloc: Global, program: &Program) -> Result<Pads, AllocError>
    requires own { OwnNames program.now }
    requires kept { (at : Place) → ¬ E20 program.now at }
    ensures { IfOk result (ArePadsOf program.now) }
{
    let mut inputs = List::new(alloc);
    let mut outputs = List::new(alloc);
    let defs = program.defs.as_slice();
    for def in defs {
        if def.what.is_input() {
            inputs.push(pad_of(alloc, program.width, def)?)?;
        }
        if def.what.is_output() {
            outputs.push(pad_of(alloc, program.width, def)?)?;
        }
    }
    Ok(Pads { inputs, outputs })
}
