//! Cells while they are laid out.

ghost use Rattle.std.specs.Prelude.{◌≡◌, [], ◌∷◌, ◌++◌, IfOk};
ghost use Rattle.process_layout.specs.Index.{IsCellFor, IsIndexOf, IsIndexOf-prop};

use crate::index::RoleIndex;
use mp_base::{List, NoMemory};
use process_plan::Role;
use rtl_form::Cell;
use std::alloc::Global;

/// Cells, and what each stands for.
#[derive(Drop)]
pub(crate) struct Laid {
    pub cells: List<Cell>,
    pub roles: List<Role>,
    pub index: RoleIndex,
    pub ghost indexed: { IsIndexOf roles index } by { IsIndexOf-prop roles index },
}

impl Laid {
    pub(crate) fn new(alloc: Global) -> Laid
        ensures cells { result.cells ≡ [] }
        ensures roles { result.roles ≡ [] }
    {
        Laid {
            cells: List::new(alloc),
            roles: List::new(alloc),
            index: RoleIndex::new(alloc),
        }
    }

    /// These cells and one more.
    pub(crate) fn with(self, role: Role, cell: Cell) -> Result<Laid, NoMemory>
        ensures cells { IfOk result (λ laid. laid.cells ≡ self.cells ++ cell ∷ []) }
        ensures roles { IfOk result (λ laid. laid.roles ≡ self.roles ++ role ∷ []) }
    {
        let Laid {
            mut cells,
            mut roles,
            index,
        } = self;
        let Ok(number) = u32::try_from(roles.len()) else {
            return Err(NoMemory);
        };
        let index = index.with(role, number)?;
        cells.push(cell)?;
        roles.push(role)?;
        Ok(Laid {
            cells,
            roles,
            index,
        })
    }

    /// The cell with a role, where there is one.
    pub(crate) fn cell(&self, role: Role) -> Option<u32>
        ensures { IsCellFor self.now.roles role result }
    {
        self.index.cell(role)
    }
}
