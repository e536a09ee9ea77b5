//! The forms of a program, in text order.

ghost use Rattle.std.specs.Prelude.{◌≡◌, ◌<◌, ◌^◌, ℕ, IfOk, length, map, slice_index};
ghost use Rattle.form_reader.specs.Sound.{IsSound};
ghost use Rattle.mp_entries.specs.Entries.{branch_at, form_at, form_kind, is_form, nodes_below};

use crate::exprs::entries;
use crate::nodes::{behind, item, items_at, name_at, node_at};
use crate::ranks::{Ranks, is_form};
use form_reader::Forms;
use mp_base::List;
use mp_program::{Branch, Form, FormKind};
use mp_shapes::{Class, Layout, shape_of};
use std::alloc::{AllocError, Global};

fn branch_of(alloc: Global, forms: &Forms, ranks: &Ranks, node: u32) -> Result<Branch, AllocError>
    requires sound { IsSound forms.now }
    requires inside { node < length forms.now.nodes }
    ensures { IfOk result (λ branch. branch
        ≡ branch_at forms.now (slice_index ranks.now.exprs) (slice_index ranks.now.forms) node) }
{
    let items = items_at(forms, node);
    let guard = item(ranks.exprs.as_slice(), item(items, 0) as usize);
    let body = entries(alloc, &ranks.forms, behind(items, 1))?;
    Ok(Branch { guard, body })
}

fn branches_of(
    alloc: Global,
    forms: &Forms,
    ranks: &Ranks,
    nodes: &[u32],
) -> Result<List<Branch>, AllocError>
    requires sound { IsSound forms.now }
    requires inside { (k : ℕ) → k < length nodes.now → slice_index nodes.now k < length forms.now.nodes }
    ensures { IfOk result (λ branches. branches
        ≡ map (branch_at forms.now (slice_index ranks.now.exprs) (slice_index ranks.now.forms)) nodes.now) }
{
    let mut branches = List::new(alloc);
    for node in nodes {
        branches.push(branch_of(alloc, forms, ranks, *node)?)?;
    }
    Ok(branches)
}

fn kind_of(
    alloc: Global,
    forms: &Forms,
    ranks: &Ranks,
    items: &[u32],
    layout: Option<Layout>,
) -> Result<FormKind, AllocError>
    requires sound { IsSound forms.now }
    requires some { 0 < length forms.now.nodes }
    requires inside { (k : ℕ) → k < length items.now → slice_index items.now k < length forms.now.nodes }
    ensures { IfOk result (λ kind. kind
        ≡ form_kind forms.now (slice_index ranks.now.exprs) (slice_index ranks.now.forms) items.now layout) }
{
    match layout {
        Some(Layout::Setq) => Ok(FormKind::Set {
            target: name_at(alloc, forms, item(items, 1))?,
            at: node_at(forms, item(items, 1)).place,
            value: item(ranks.exprs.as_slice(), item(items, 2) as usize),
        }),
        Some(Layout::Cond) => {
            let branches = branches_of(alloc, forms, ranks, behind(items, 1))?;
            Ok(FormKind::Cond(branches))
        }
        Some(Layout::Par) => {
            let body = entries(alloc, &ranks.forms, behind(items, 1))?;
            Ok(FormKind::Par(body))
        }
        Some(Layout::Go) => Ok(FormKind::Go(name_at(alloc, forms, item(items, 1))?)),
        Some(Layout::Call) => Ok(FormKind::Call(name_at(alloc, forms, item(items, 1))?)),
        _ => Ok(FormKind::Return),
    }
}

fn form_of(alloc: Global, forms: &Forms, ranks: &Ranks, node: u32) -> Result<Form, AllocError>
    requires sound { IsSound forms.now }
    requires inside { node < length forms.now.nodes }
    ensures { IfOk result (λ form. form
        ≡ form_at forms.now (slice_index ranks.now.exprs) (slice_index ranks.now.forms) node) }
{
    let place = node_at(forms, node).place;
    let layout = shape_of(forms, Class::Action, node);
    let kind = kind_of(alloc, forms, ranks, items_at(forms, node), layout)?;
    Ok(Form { place, kind })
}

/// The forms of a program whose nodes have these classes.
pub fn forms_of(
    alloc: Global,
    forms: &Forms,
    classes: &List<Option<Class>>,
    ranks: &Ranks,
) -> Result<List<Form>, AllocError>
    requires sound { IsSound forms.now }
    requires size { length classes.now ≡ length forms.now.nodes }
    requires small { length forms.now.nodes < 2 ^ 32 }
    ensures { IfOk result (λ list. list ≡ map (form_at forms.now (slice_index ranks.now.exprs)
        (slice_index ranks.now.forms)) (nodes_below (is_form forms.now classes.now) (length forms.now.nodes))) }
{
    let mut list = List::new(alloc);
    for node in 0..forms.nodes.len() as u32 {
        if is_form(forms, node, *classes.at(node)) {
            list.push(form_of(alloc, forms, ranks, node)?)?;
        }
    }
    Ok(list)
}
