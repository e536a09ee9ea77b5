//! Where each role's cell is.

ghost use Rattle.std.specs.Prelude.{◌≡◌, [], ◌∷◌, ◌++◌, List, IfOk, length};
ghost use Rattle.process_plan.specs.declared.role.Role as roles;
ghost use Rattle.process_layout.specs.Index.{IsCellFor, IsIndexOf};

use process_plan::Role;
use std::alloc::{AllocError, Global};
use std::collections::BTreeMap;

/// The cells of definitions, by their indices; of places, by process and place; and of the entries of stacks, by
/// process, level and place.
#[derive(Drop)]
pub(crate) struct RoleIndex {
    pub values: BTreeMap<u32, u32>,
    pub places: BTreeMap<(u32, u32), u32>,
    pub entries: BTreeMap<(u32, u32, u32), u32>,
}

impl RoleIndex {
    pub(crate) fn new(alloc: Global) -> RoleIndex
        ensures { IsIndexOf [] result }
    {
        RoleIndex {
            values: BTreeMap::new(alloc),
            places: BTreeMap::new(alloc),
            entries: BTreeMap::new(alloc),
        }
    }

    /// The cell with a role.
    pub(crate) fn cell(&self, role: Role) -> Option<u32>
        ensures { (all : List roles.Role) → IsIndexOf all self.now → IsCellFor all role result }
    {
        match role {
            Role::Value(definition) => self.values.get(&definition).copied(),
            Role::Placed { process, place } => self.places.get(&(process, place)).copied(),
            Role::Stacked {
                process,
                level,
                place,
            } => self.entries.get(&(process, level, place)).copied(),
        }
    }

    /// This index with one more role, that of the next cell.
    pub(crate) fn with(self, role: Role, cell: u32) -> Result<RoleIndex, AllocError>
        ensures { IfOk result (λ index. (all : List roles.Role) → IsIndexOf all self → length all ≡ cell
            → IsIndexOf (all ++ role ∷ []) index) }
    {
        let RoleIndex {
            mut values,
            mut places,
            mut entries,
        } = self;
        match role {
            Role::Value(definition) => {
                values.insert(definition, cell)?;
            }
            Role::Placed { process, place } => {
                places.insert((process, place), cell)?;
            }
            Role::Stacked {
                process,
                level,
                place,
            } => {
                entries.insert((process, level, place), cell)?;
            }
        }
        Ok(RoleIndex {
            values,
            places,
            entries,
        })
    }
}
