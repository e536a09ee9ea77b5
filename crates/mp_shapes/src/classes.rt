//! What the nodes of a source stand for, or the first place where it has no shape.

ghost use Rattle.std.specs.Prelude.{◌≡◌, ◌<◌, ◌^◌, ℕ, List, ◌∷◌, length, slice_index, replicate, IfOk, IfErr};
ghost use Rattle.mp_base.specs.declared.refusal.Family.TheVariants.{E};
ghost use Rattle.mp_base.specs.declared.refusal.Place.{Place};
ghost use Rattle.mp_base.specs.Refuses.{RefusesAt};
ghost use Rattle.form_reader.specs.Sound.{IsSound, node};
ghost use Rattle.mp_shapes.specs.Standing.{E10, IsFirstE10, IsFirstDefect, AreClasses};
ghost use Rattle.mp_shapes.specs.Marking.{Marked};

use crate::layouts::{item_class, items_of, shape_of};
use crate::table::{Class, Layout};
use form_reader::Forms;
use mp_base::{Broken, Family, List, Place, Refusal, Rule, Spot};
use std::alloc::{AllocError, Global};

/// Gives the items of a list their classes.
fn mark(layout: Layout, items: &[u32], classes: &mut List<Option<Class>>)
    requires inside { (k : ℕ) → k < length items.now → slice_index items.now k < length classes.old }
    requires apart { (j k : ℕ) → j < length items.now → k < length items.now
        → slice_index items.now j ≡ slice_index items.now k → j ≡ k }
    ensures { Marked layout items.now (length items.now) classes.old classes.new }
{
    for (j, item) in items.iter().enumerate() {
        if let Some(class) = item_class(layout, j) {
            classes.set(*item, Some(class));
        }
    }
}

fn no_shape(place: Place) -> Refusal
    ensures { result ≡ Refusal.Broken
        (record { rule = record { family = Family.E; number = 10 }; spot = Spot.At place }) }
{
    Refusal::Broken(Broken {
        rule: Rule {
            family: Family::E,
            number: 10,
        },
        spot: Spot::At(place),
    })
}

fn unset(alloc: Global, count: usize) -> Result<List<Option<Class>>, AllocError>
    ensures { IfOk result (λ classes. classes ≡ replicate count None) }
{
    let vec = Vec::from_elem(alloc, None, count)?;
    Ok(List::from_vec(vec))
}

/// What each node stands for. A list stands before its items, so one pass finds all, and the first defect by offset.
fn classify(alloc: Global, forms: &Forms, root: u32) -> Result<List<Option<Class>>, Refusal>
    requires sound { IsSound forms.now }
    requires rooted { (rs : List ℕ) × (forms.now.roots ≡ root ∷ rs) }
    requires small { length forms.now.nodes < 2 ^ 32 }
    ensures ok { IfOk result (AreClasses forms.now) }
    ensures err { IfErr result (λ e. RefusesAt E e (λ k at. (k ≡ 10) × (n : ℕ) × IsFirstDefect forms.now n
        × (at ≡ (node forms.now n).place))) }
{
    let count = forms.nodes.len();
    let mut classes = unset(alloc, count)?;
    classes.set(root, Some(Class::Whole));
    for n in 0..count {
        if let Some(class) = *classes.at(n as u32) {
            match shape_of(forms, class, n as u32) {
                Some(shape) => mark(shape, items_of(forms, n as u32), &mut classes),
                None => return Err(no_shape(forms.nodes.at(n as u32).place)),
            }
        }
    }
    Ok(classes)
}

/// What each node stands for, if anything, where the source is one program and each of its nodes has a shape.
/// Otherwise rule E10 at its first place by offset.
pub fn judge_shapes(alloc: Global, forms: &Forms) -> Result<List<Option<Class>>, Refusal>
    requires sound { IsSound forms.now }
    requires small { length forms.now.nodes < 2 ^ 32 }
    ensures ok { IfOk result (AreClasses forms.now) }
    ensures whole { IfOk result (λ classes. (at : Place) → ¬ E10 forms.now at) }
    ensures err { IfErr result (λ e. RefusesAt E e (λ k at. (k ≡ 10) × IsFirstE10 forms.now at)) }
{
    if forms.roots.len() == 0 {
        return Err(no_shape(forms.end));
    }
    let root = *forms.roots.at(0);
    let classes = match classify(alloc, forms, root) {
        Ok(classes) => classes,
        Err(refusal) => return Err(refusal),
    };
    if forms.roots.len() > 1 {
        return Err(no_shape(forms.nodes.at(*forms.roots.at(1)).place));
    }
    Ok(classes)
}
