//! What a program does always, and its processes.

ghost use Rattle.std.specs.Prelude.{◌≡◌, ◌<◌, ◌^◌, ℕ, IfOk, length, map, not, slice_index};
ghost use Rattle.std.specs.List.{filter, filter_map, flat_map};
ghost use Rattle.form_reader.specs.Sound.{IsSound, items_of, kind_at};
ghost use Rattle.mp_shapes.specs.Layout.{is_symbol};
ghost use Rattle.mp_syntax.specs.Shape.{always_at, labels_from, process_at, process_of};

use form_reader::Forms;
use mp_base::List;
use mp_entries::{
    append_entries, behind, elements_at, is_symbol, item, items_at, name_at, node_at, number_at,
};
use mp_program::{Label, Process};
use mp_shapes::{Class, Layout, shape_of};
use std::alloc::{AllocError, Global};

fn labels_of(alloc: Global, forms: &Forms, elements: &[u32]) -> Result<List<Label>, AllocError>
    requires inside { (k : ℕ) → k < length elements.now → slice_index elements.now k < length forms.now.nodes }
    requires small { length elements.now < 2 ^ 32 }
    ensures { IfOk result (λ labels. labels ≡ labels_from forms.now 0 elements.now) }
{
    let mut labels = List::new(alloc);
    let mut before = 0u32;
    for node in elements {
        if is_symbol(forms, *node) {
            labels.push(Label {
                place: node_at(forms, *node).place,
                name: name_at(alloc, forms, *node)?,
                before,
            })?;
        } else {
            before += 1;
        }
    }
    Ok(labels)
}

fn top_forms(
    alloc: Global,
    forms: &Forms,
    ranks: &List<u32>,
    elements: &[u32],
) -> Result<List<u32>, AllocError>
    requires { (k : ℕ) → k < length elements.now → slice_index elements.now k < length forms.now.nodes }
    ensures { IfOk result (λ list. list
        ≡ map (slice_index ranks.now) (filter (λ n. not (is_symbol (kind_at forms.now n))) elements.now)) }
{
    let mut list = List::new(alloc);
    for node in elements {
        if !is_symbol(forms, *node) {
            list.push(item(ranks.as_slice(), *node as usize))?;
        }
    }
    Ok(list)
}

fn process_of(
    alloc: Global,
    forms: &Forms,
    ranks: &List<u32>,
    node: u32,
) -> Result<Process, AllocError>
    requires sound { IsSound forms.now }
    requires inside { node < length forms.now.nodes }
    requires small { length forms.now.nodes < 2 ^ 32 }
    ensures { IfOk result (λ process. process
        ≡ process_of forms.now (slice_index ranks.now) node (items_of (kind_at forms.now node))) }
{
    let items = items_at(forms, node);
    let elements = elements_at(forms, node);
    Ok(Process {
        place: node_at(forms, node).place,
        name: name_at(alloc, forms, item(items, 1))?,
        depth: number_at(forms, item(items, 2)),
        depth_at: node_at(forms, item(items, 2)).place,
        labels: labels_of(alloc, forms, elements)?,
        forms: top_forms(alloc, forms, ranks, elements)?,
    })
}

/// The processes among the items of a program.
pub fn processes_of(
    alloc: Global,
    forms: &Forms,
    ranks: &List<u32>,
    items: &[u32],
) -> Result<List<Process>, AllocError>
    requires sound { IsSound forms.now }
    requires inside { (k : ℕ) → k < length items.now → slice_index items.now k < length forms.now.nodes }
    requires small { length forms.now.nodes < 2 ^ 32 }
    ensures { IfOk result (λ processes. processes
        ≡ filter_map (process_at forms.now (slice_index ranks.now)) items.now) }
{
    let mut processes = List::new(alloc);
    for node in items {
        if let Some(Layout::Process) = shape_of(forms, Class::Item, *node) {
            processes.push(process_of(alloc, forms, ranks, *node)?)?;
        }
    }
    Ok(processes)
}

/// The forms of each `always` among the items of a program.
pub fn always_of(
    alloc: Global,
    forms: &Forms,
    ranks: &List<u32>,
    items: &[u32],
) -> Result<List<u32>, AllocError>
    requires sound { IsSound forms.now }
    requires inside { (k : ℕ) → k < length items.now → slice_index items.now k < length forms.now.nodes }
    ensures { IfOk result (λ list. list ≡ flat_map (always_at forms.now (slice_index ranks.now)) items.now) }
{
    let mut list = List::new(alloc);
    for node in items {
        if let Some(Layout::Always) = shape_of(forms, Class::Item, *node) {
            append_entries(&mut list, ranks, behind(items_at(forms, *node), 1))?;
        }
    }
    Ok(list)
}
