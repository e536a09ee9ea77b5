//! The program that forms spell, or the first broken rule.

ghost use Rattle.std.specs.Prelude.{◌≡◌, ◌<◌, ◌≤◌, ◌^◌, ◌⊎◌, ℕ, [], ◌∷◌, IfOk, length, map, slice_index};
ghost use Rattle.std.specs.List.{filter_map, flat_map};
ghost use Rattle.form_reader.specs.Sound.{HasSymbols, IsSound, items_of, kind_at};
ghost use Rattle.mp_base.specs.Refuses.{IsJudged};
ghost use Rattle.mp_base.specs.declared.refusal.Family.TheVariants.{E};
ghost use Rattle.mp_base.specs.declared.refusal.Place.{Place};
ghost use Rattle.mp_shapes.specs.Standing.{AreClasses, E10};
ghost use Rattle.mp_entries.specs.Entries.{expr_at, form_at, is_expr, is_form, name_at, nodes_below, number_at};
ghost use Rattle.mp_syntax.specs.Shape.{E11, IsShape, always_at, def_at, process_at, OfForms};

use crate::defs::defs_of;
use crate::items::{always_of, processes_of};
use form_reader::Forms;
use mp_base::{Broken, Family, List, Name, Place, Refusal, Rule, Spot};
use mp_entries::{
    Ranks, elements_at, exprs_of, forms_of, item, items_at, name_at, node_at, number_at, ranks_of,
};
use mp_program::{Form, Process};
use mp_shapes::{Class, judge_shapes};
use mp_written::{Def, Expr, Program};
use std::alloc::{AllocError, Global};

fn wrong_width(place: Place) -> Refusal
    ensures { result ≡ Refusal.Broken
        (record { rule = record { family = Family.E; number = 11 }; spot = Spot.At place }) }
{
    Refusal::Broken(Broken {
        rule: Rule {
            family: Family::E,
            number: 11,
        },
        spot: Spot::At(place),
    })
}

/// The name of a program, and its definitions.
#[derive(Drop)]
struct Head {
    name: Name,
    defs: List<Def>,
}

fn head_of(
    alloc: Global,
    forms: &Forms,
    ranks: &List<u32>,
    name: u32,
    items: &[u32],
) -> Result<Head, AllocError>
    requires sound { IsSound forms.now }
    requires named { name < length forms.now.nodes }
    requires inside { (k : ℕ) → k < length items.now → slice_index items.now k < length forms.now.nodes }
    ensures name { IfOk result (λ h. h.name ≡ name_at forms.now name) }
    ensures defs { IfOk result (λ h. h.defs ≡ filter_map (def_at forms.now (slice_index ranks.now)) items.now) }
{
    Ok(Head {
        name: name_at(alloc, forms, name)?,
        defs: defs_of(alloc, forms, ranks, items)?,
    })
}

/// Its expressions, and its forms.
#[derive(Drop)]
struct Entries {
    exprs: List<Expr>,
    forms: List<Form>,
}

fn entries_of(
    alloc: Global,
    forms: &Forms,
    classes: &List<Option<Class>>,
    ranks: &Ranks,
) -> Result<Entries, AllocError>
    requires sound { IsSound forms.now }
    requires size { length classes.now ≡ length forms.now.nodes }
    requires small { length forms.now.nodes < 2 ^ 32 }
    ensures exprs { IfOk result (λ e. e.exprs ≡ map (expr_at forms.now (slice_index ranks.now.exprs))
        (nodes_below (is_expr classes.now) (length forms.now.nodes))) }
    ensures forms { IfOk result (λ e. e.forms ≡ map (form_at forms.now (slice_index ranks.now.exprs)
        (slice_index ranks.now.forms)) (nodes_below (is_form forms.now classes.now) (length forms.now.nodes))) }
{
    Ok(Entries {
        exprs: exprs_of(alloc, forms, classes, &ranks.exprs)?,
        forms: forms_of(alloc, forms, classes, ranks)?,
    })
}

/// Its forms that are always active, and its processes.
#[derive(Drop)]
struct Active {
    always: List<u32>,
    processes: List<Process>,
}

fn active_of(
    alloc: Global,
    forms: &Forms,
    ranks: &List<u32>,
    items: &[u32],
) -> Result<Active, AllocError>
    requires sound { IsSound forms.now }
    requires inside { (k : ℕ) → k < length items.now → slice_index items.now k < length forms.now.nodes }
    requires small { length forms.now.nodes < 2 ^ 32 }
    ensures always { IfOk result (λ a. a.always ≡ flat_map (always_at forms.now (slice_index ranks.now)) items.now) }
    ensures processes { IfOk result (λ a. a.processes
        ≡ filter_map (process_at forms.now (slice_index ranks.now)) items.now) }
{
    Ok(Active {
        always: always_of(alloc, forms, ranks, items)?,
        processes: processes_of(alloc, forms, ranks, items)?,
    })
}

fn program_of(
    alloc: Global,
    forms: &Forms,
    classes: &List<Option<Class>>,
    root: u32,
) -> Result<Program, AllocError>
    requires sound { IsSound forms.now }
    requires symbols { HasSymbols forms.now }
    requires small { length forms.now.nodes < 2 ^ 32 }
    requires one { forms.now.roots ≡ root ∷ [] }
    requires known { AreClasses forms.now classes.now }
    requires low { 1 ≤ number_at forms.now (slice_index (items_of (kind_at forms.now root)) 2) }
    requires high { number_at forms.now (slice_index (items_of (kind_at forms.now root)) 2) ≤ 64 }
    ensures { IfOk result (IsShape forms.now) }
{
    let ranks = ranks_of(alloc, forms, classes)?;
    let items = items_at(forms, root);
    let rest = elements_at(forms, root);
    let entries = entries_of(alloc, forms, classes, &ranks)?;
    let active = active_of(alloc, forms, &ranks.forms, rest)?;
    let head = head_of(alloc, forms, &ranks.exprs, item(items, 1), rest)?;
    Ok(Program {
        place: node_at(forms, root).place,
        name: head.name,
        width: number_at(forms, item(items, 2)) as u8,
        defs: head.defs,
        exprs: entries.exprs,
        forms: entries.forms,
        always: active.always,
        processes: active.processes,
    })
}

/// The program that forms spell, as it is written. E10 at the first node that has no shape of what it stands for, at a
/// second form, or at the end where there is no form; then E11 at the word length, where it isn't 1 to 64.
pub fn parse(alloc: Global, forms: &Forms) -> Result<Program, Refusal>
    requires sound { IsSound forms.now }
    requires symbols { HasSymbols forms.now }
    requires small { length forms.now.nodes < 2 ^ 32 }
    ensures shape { IfOk result (IsShape forms.now) }
    ensures judged { IsJudged (OfForms forms.now) result }
{
    let classes = match judge_shapes(alloc, forms) {
        Ok(classes) => classes,
        Err(refusal) => return Err(refusal),
    };
    let root = *forms.roots.at(0);
    let width_at = item(items_at(forms, root), 2);
    let width = number_at(forms, width_at);
    if width == 0 {
        return Err(wrong_width(node_at(forms, width_at).place));
    }
    if width > 64 {
        return Err(wrong_width(node_at(forms, width_at).place));
    }
    Ok(program_of(alloc, forms, &classes, root)?)
}
