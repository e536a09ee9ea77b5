//! What is driven.

use mp_program::Program;

// Whether forms set the value of what is defined at an index in each clock; false past the last definition.
pub(crate) fn is_driven_at(program: &Program, index: usize) -> bool {
    index < program.defs.len() && program.defs.as_slice()[index].what.is_driven()
}
