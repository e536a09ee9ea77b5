//! A source that is read and judged.

ghost use Rattle.std.specs.Prelude.{◌≡◌, IfOk, IfSome};
ghost use Rattle.outside.specs.Outside.{Keeps, bytes_of};
ghost use Rattle.mp_source.specs.Source.{IsSource};
ghost use Rattle.outcome.specs.Halt.{HasReason};
ghost use Rattle.source_files.specs.Faults.{SourceFault};

use crate::limits::TEXT_LIMIT;
use mp_checker::Checked;
use mp_source::check_source;
use outcome::{Halt, read_text};
use outside::Depot;
use std::alloc::Global;

/// Reads a source that breaks no rule.
///
/// # Errors
///
/// A read fault, the first broken rule of L1 and E, or want of memory.
pub fn read_source<D: Depot>(alloc: Global, depot: &mut D, name: &str) -> Result<Checked, Halt>
    ensures held { Keeps (D.held depot.old) (D.held depot.new) }
    ensures source { IfOk result (λ checked. IfSome (D.held depot.new)
        (λ files. IsSource (bytes_of files name.now) checked.program)) }
    ensures reason { HasReason (SourceFault name.now) (D.held depot.new)
        (D.read_faults depot.old) (D.read_faults depot.new) result }
    ensures writes { D.write_faults depot.new ≡ D.write_faults depot.old }
{
    let text = read_text(alloc, depot, name, TEXT_LIMIT)?;
    Ok(check_source(alloc, &text)?)
}
