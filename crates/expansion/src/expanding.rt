//! From a program as it is written to its expansion.

ghost use Rattle.std.specs.Prelude.{IfOk};
ghost use Rattle.mp_written.specs.Expansion.{IsExpansion};
ghost use Rattle.written_meanings.specs.Meanings.{AreMeanings};
ghost use Rattle.written_rules.specs.Breaking.{IsUnbroken};

use crate::forms::{moved_forms, plain_defs};
use crate::layout::lay;
use crate::templates::templates;
use crate::walk::walk;
use mp_program as plain;
use mp_written as written;
use std::alloc::{AllocError, Global};
use written_meanings::Meanings;

/// The expansion of a program that breaks no rule. Only names in expressions are copied. It takes time and memory as the
/// program, its expansion, and the templates of the functions that it needs, each no longer than the expansion.
///
/// # Errors
///
/// Want of memory.
pub fn expand(
    alloc: Global,
    program: written::Program,
    meanings: &Meanings,
) -> Result<plain::Program, AllocError>
    requires meant { AreMeanings program meanings.now }
    requires unbroken { IsUnbroken program }
    ensures { IfOk result (IsExpansion program) }
{
    let slots = templates(alloc, &program, meanings)?;
    let walked = walk(alloc, &program, meanings, &slots)?;
    let exprs = lay(alloc, program.exprs.as_slice(), walked.pieces.as_slice())?;
    let written::Program {
        place,
        name,
        width,
        defs,
        exprs: _,
        forms,
        always,
        processes,
        ..
    } = program;
    let defs = plain_defs(alloc, defs)?;
    let forms = moved_forms(alloc, forms, walked.starts.as_slice())?;
    Ok(plain::Program {
        place,
        name,
        width,
        defs,
        exprs,
        forms,
        always,
        processes,
    })
}
