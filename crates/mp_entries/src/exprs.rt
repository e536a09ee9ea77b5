//! The expressions of a program, in text order.

ghost use Rattle.std.specs.Prelude.{◌≡◌, ◌<◌, ◌^◌, ◌++◌, ℕ, IfOk, OnOk, length, map, slice_index};
ghost use Rattle.form_reader.specs.Sound.{IsSound};
ghost use Rattle.mp_entries.specs.Entries.{expr_at, is_expr, list_expr, nodes_below, symbol_expr};

use crate::nodes::{behind, item, items_at, name_at, node_at, number_at};
use crate::ranks::is_expr;
use form_reader::{Forms, Kind};
use mp_base::{List, Name, Op};
use mp_shapes::{Class, Layout, shape_of};
use mp_written::{Expr, ExprKind};
use std::alloc::{AllocError, Global};

/// Adds the indices of the entries of nodes.
pub fn append_entries(
    list: &mut List<u32>,
    ranks: &List<u32>,
    nodes: &[u32],
) -> Result<(), AllocError>
    ensures { OnOk result (list.new ≡ list.old ++ map (slice_index ranks.now) nodes.now) }
{
    for node in nodes {
        list.push(item(ranks.as_slice(), *node as usize))?;
    }
    Ok(())
}

/// The indices of the entries of nodes.
pub fn entries(alloc: Global, ranks: &List<u32>, nodes: &[u32]) -> Result<List<u32>, AllocError>
    ensures { IfOk result (λ list. list ≡ map (slice_index ranks.now) nodes.now) }
{
    let mut list = List::new(alloc);
    append_entries(&mut list, ranks, nodes)?;
    Ok(list)
}

fn symbol_expr(alloc: Global, name: &[u8]) -> Result<ExprKind, AllocError>
    ensures { IfOk result (λ kind. kind ≡ symbol_expr name.now) }
{
    if name == b"t".as_slice() {
        return Ok(ExprKind::True);
    }
    if name == b"f".as_slice() {
        return Ok(ExprKind::False);
    }
    Ok(ExprKind::Named(Name::from_slice(alloc, name)?))
}

fn list_expr(
    alloc: Global,
    forms: &Forms,
    ranks: &List<u32>,
    items: &[u32],
    layout: Option<Layout>,
) -> Result<ExprKind, AllocError>
    requires some { 0 < length forms.now.nodes }
    requires inside { (k : ℕ) → k < length items.now → slice_index items.now k < length forms.now.nodes }
    ensures { IfOk result (λ kind. kind ≡ list_expr forms.now (slice_index ranks.now) items.now layout) }
{
    match layout {
        Some(Layout::Apply(op)) => Ok(ExprKind::Apply {
            op,
            index: 0,
            args: entries(alloc, ranks, behind(items, 1))?,
        }),
        Some(Layout::Bit) => Ok(ExprKind::Apply {
            op: Op::Bit,
            index: number_at(forms, item(items, 1)),
            args: entries(alloc, ranks, behind(items, 2))?,
        }),
        Some(Layout::Use) => {
            let head = item(items, 0);
            Ok(ExprKind::Use {
                at: node_at(forms, head).place,
                name: name_at(alloc, forms, head)?,
                args: entries(alloc, ranks, behind(items, 1))?,
            })
        }
        _ => Ok(ExprKind::Number(0)),
    }
}

fn expr_of(alloc: Global, forms: &Forms, ranks: &List<u32>, node: u32) -> Result<Expr, AllocError>
    requires sound { IsSound forms.now }
    requires inside { node < length forms.now.nodes }
    ensures { IfOk result (λ x. x ≡ expr_at forms.now (slice_index ranks.now) node) }
{
    let found = node_at(forms, node);
    let kind = match &found.kind {
        Kind::Number(value) => ExprKind::Number(*value),
        Kind::Symbol(name) => symbol_expr(alloc, name.bytes())?,
        Kind::Group(_) => {
            let layout = shape_of(forms, Class::Value, node);
            list_expr(alloc, forms, ranks, items_at(forms, node), layout)?
        }
    };
    Ok(Expr {
        place: found.place,
        kind,
    })
}

/// The expressions of forms whose nodes have these classes.
pub fn exprs_of(
    alloc: Global,
    forms: &Forms,
    classes: &List<Option<Class>>,
    ranks: &List<u32>,
) -> Result<List<Expr>, AllocError>
    requires sound { IsSound forms.now }
    requires size { length classes.now ≡ length forms.now.nodes }
    requires small { length forms.now.nodes < 2 ^ 32 }
    ensures { IfOk result (λ exprs. exprs ≡ map (expr_at forms.now (slice_index ranks.now))
        (nodes_below (is_expr classes.now) (length forms.now.nodes))) }
{
    let mut exprs = List::new(alloc);
    for node in 0..forms.nodes.len() as u32 {
        if is_expr(*classes.at(node)) {
            exprs.push(expr_of(alloc, forms, ranks, node)?)?;
        }
    }
    Ok(exprs)
}
