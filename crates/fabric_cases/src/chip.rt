//! A chip that has no more than its fabric.

ghost use Rattle.std.specs.Prelude.{◌≤◌, ◌<◌, All, IfOk};
ghost use Rattle.fabric.specs.Shape.{shape};
ghost use Rattle.cif_emit.specs.Emittable.{IsOnGrid, IsPlainLabel, IsEmittable, chip_rects};

use cif_emit::laws::fabrics_are_on_grid;
use fabric::{Chip, ChipLabel, Fabric};
use lam_geom::Shape;
use mp_base::{List, NoMemory};
use std::alloc::Global;

// A fabric of one band in which nothing stands.
fn fabric(alloc: Global, columns: u32, rows: u32) -> Result<Fabric, NoMemory>
    requires columns { (3 ≤ columns) × (columns < 1000) }
    requires rows { (1 ≤ rows) × (rows < 1000) }
    ensures { IfOk result (λ fabric. All IsOnGrid (shape fabric)) }
{
    fabrics_are_on_grid();
    let mut bands = List::new(alloc);
    bands.push(rows)?;
    let fabric = Fabric::new(alloc, columns, bands)?;
    fabric.conditions();
    Ok(fabric)
}

fn no_rects(alloc: Global) -> Shape
    ensures { All IsOnGrid result }
{
    List::new(alloc)
}

fn no_labels(alloc: Global) -> List<ChipLabel>
    ensures { All IsPlainLabel result }
{
    List::new(alloc)
}

/// A chip of a fabric in which nothing stands.
pub(crate) fn chip(alloc: Global) -> Result<Chip, NoMemory>
    ensures { IfOk result (λ c. IsEmittable (chip_rects c) c.labels) }
{
    let fabric = fabric(alloc, 3, 1)?;
    let extra = no_rects(alloc);
    let labels = no_labels(alloc);
    Ok(Chip {
        fabric,
        extra,
        labels,
    })
}
