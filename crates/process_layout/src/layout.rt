//! The cells of a program.

ghost use Rattle.process_layout.specs.Index.{IsCellFor, IsIndexOf, IsIndexOf-prop};

use crate::index::RoleIndex;
use mp_base::List;
use process_plan::Role;
use rtl_form::Cell;

/// The cells of a program: what each stands for, an order of those of its definitions in which they can be evaluated,
/// and the cell of its input `reset`.
#[derive(Drop)]
pub struct Layout {
    pub cells: List<Cell>,
    pub roles: List<Role>,
    pub order: List<u32>,
    pub reset: Option<u32>,
    pub(crate) index: RoleIndex,
    pub ghost indexed: { IsIndexOf roles index } by { IsIndexOf-prop roles index },
}

impl Layout {
    /// The cell with this role, where there is one.
    pub fn cell(&self, role: Role) -> Option<u32>
        ensures { IsCellFor self.now.roles role result }
    {
        self.index.cell(role)
    }
}
