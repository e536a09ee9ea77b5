//! Forms that aren't what has to stand at their places: rules E10 and E11, as often as they are broken.

ghost use Rattle.std.specs.Prelude.{◌<◌, ◌^◌, length};
ghost use Rattle.form_reader.specs.Sound.{IsSound};

use crate::defects::tell_defect;
use form_reader::{Forms, Kind, Node};
use lint_words::{Findings, Note, Piece};
use mp_shapes::{Class, Layout, item_class, shape_of};
use std::alloc::{AllocError, Global};

fn items_of(node: &Node) -> &[u32] {
    match &node.kind {
        Kind::Group(items) => items.as_slice(),
        _ => &[],
    }
}

// Gives the items of a list what they have to be.
fn mark(layout: Layout, items: &[u32], classes: &mut Vec<Option<Class>>) {
    for (j, item) in items.iter().enumerate() {
        if let Some(class) = classes.get_mut(*item as usize) {
            *class = item_class(layout, j);
        }
    }
}

fn find_defects(
    alloc: Global,
    findings: &mut Findings,
    forms: &Forms,
    root: u32,
) -> Result<(), AllocError>
    requires sound { IsSound forms.now }
    requires small { length forms.now.nodes < 2 ^ 32 }
{
    let mut classes = Vec::from_elem(alloc, None, forms.nodes.len())?;
    if let Some(class) = classes.get_mut(root as usize) {
        *class = Some(Class::Whole);
    }
    for n in 0..forms.nodes.len() {
        let node = forms.nodes.at(n as u32);
        if let Some(Some(class)) = classes.get(n).copied() {
            match shape_of(forms, class, n as u32) {
                Some(layout) => mark(layout, items_of(node), &mut classes),
                None => tell_defect(findings, forms, class, node)?,
            }
        }
    }
    Ok(())
}

// A second form, behind a list.
fn find_second(findings: &mut Findings, forms: &Forms, root: u32) -> Result<(), AllocError> {
    let nodes = forms.nodes.as_slice();
    let second = forms.roots.as_slice().get(1).copied().unwrap_or(root);
    match (nodes.get(root as usize), nodes.get(second as usize)) {
        (Some(first), Some(node)) if second != root && !items_of(first).is_empty() => {
            let words = [Piece::Text("the program has ended before this")];
            findings.broken(10, node.place, Note::new(&words))
        }
        _ => Ok(()),
    }
}

// The word length, where it isn't one.
fn find_width(findings: &mut Findings, forms: &Forms, root: u32) -> Result<(), AllocError> {
    let nodes = forms.nodes.as_slice();
    let Some(node) = nodes.get(root as usize) else {
        return Ok(());
    };
    let Some(width) = items_of(node).get(2) else {
        return Ok(());
    };
    match nodes.get(*width as usize) {
        Some(node) => match node.kind {
            Kind::Number(number) if number == 0 || number > 64 => {
                let words = [
                    Piece::Text("words of this program would have bits: "),
                    Piece::Number(number),
                ];
                findings.broken(11, node.place, Note::new(&words))
            }
            _ => Ok(()),
        },
        None => Ok(()),
    }
}

/// Adds where forms break rules E10 and E11.
///
/// # Errors
/// Want of memory.
pub(crate) fn find_shapes(
    alloc: Global,
    findings: &mut Findings,
    forms: &Forms,
) -> Result<(), AllocError>
    requires sound { IsSound forms.now }
    requires small { length forms.now.nodes < 2 ^ 32 }
{
    match forms.roots.as_slice().first() {
        Some(root) => {
            find_defects(alloc, findings, forms, *root)?;
            find_width(findings, forms, *root)?;
            find_second(findings, forms, *root)
        }
        None => findings.broken(
            10,
            forms.end,
            Note::new(&[Piece::Text("the file has no form")]),
        ),
    }
}
