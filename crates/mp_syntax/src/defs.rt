//! The definitions of a program.

ghost use Rattle.std.specs.Prelude.{◌≡◌, ◌<◌, ℕ, IfOk, length, map, slice_index};
ghost use Rattle.std.specs.List.{filter_map};
ghost use Rattle.form_reader.specs.Sound.{IsSound, items_of, kind_at};
ghost use Rattle.mp_syntax.specs.Shape.{arg_at, def_at, def_of, pin_at, pin_nodes, what_of};

use form_reader::Forms;
use mp_base::List;
use mp_entries::{item, items_at, name_at, node_at, number_at};
use mp_program::{Pin, Way};
use mp_shapes::{Class, Definition, Layout, shape_of};
use mp_written::{Arg, Def, What};
use std::alloc::{AllocError, Global};

fn args_at(alloc: Global, forms: &Forms, nodes: &[u32]) -> Result<List<Arg>, AllocError>
    requires { (k : ℕ) → k < length nodes.now → slice_index nodes.now k < length forms.now.nodes }
    ensures { IfOk result (λ args. args ≡ map (arg_at forms.now) nodes.now) }
{
    let mut args = List::new(alloc);
    for node in nodes {
        args.push(Arg {
            place: node_at(forms, *node).place,
            name: name_at(alloc, forms, *node)?,
        })?;
    }
    Ok(args)
}

fn function_of(
    alloc: Global,
    forms: &Forms,
    ranks: &List<u32>,
    items: &[u32],
) -> Result<What, AllocError>
    requires sound { IsSound forms.now }
    requires some { 0 < length forms.now.nodes }
    requires inside { (k : ℕ) → k < length items.now → slice_index items.now k < length forms.now.nodes }
    ensures { IfOk result (λ what. what ≡ what_of forms.now (slice_index ranks.now) items.now Definition.Function) }
{
    Ok(What::Function {
        args: args_at(alloc, forms, items_at(forms, item(items, 3)))?,
        body: item(ranks.as_slice(), item(items, 4) as usize),
    })
}

fn what_of(
    alloc: Global,
    forms: &Forms,
    ranks: &List<u32>,
    items: &[u32],
    definition: Definition,
) -> Result<What, AllocError>
    requires sound { IsSound forms.now }
    requires some { 0 < length forms.now.nodes }
    requires inside { (k : ℕ) → k < length items.now → slice_index items.now k < length forms.now.nodes }
    ensures { IfOk result (λ what. what ≡ what_of forms.now (slice_index ranks.now) items.now definition) }
{
    let what = match definition {
        Definition::Power => What::Power,
        Definition::Ground => What::Ground,
        Definition::Phia => What::Phia,
        Definition::Phib => What::Phib,
        Definition::Phic => What::Phic,
        Definition::Constant => What::Constant(number_at(forms, item(items, 3))),
        Definition::Register => What::Register,
        Definition::Flag => What::Flag,
        Definition::PortInput => What::Port(Way::Input),
        Definition::PortOutput => What::Port(Way::Output),
        Definition::PortInternal => What::Port(Way::Internal),
        Definition::SignalInput => What::Signal(Way::Input),
        Definition::SignalOutput => What::Signal(Way::Output),
        Definition::SignalInternal => What::Signal(Way::Internal),
        Definition::Function => function_of(alloc, forms, ranks, items)?,
    };
    Ok(what)
}

fn pins_at(alloc: Global, forms: &Forms, nodes: &[u32]) -> Result<List<Pin>, AllocError>
    requires { (k : ℕ) → k < length nodes.now → slice_index nodes.now k < length forms.now.nodes }
    ensures { IfOk result (λ pins. pins ≡ map (pin_at forms.now) nodes.now) }
{
    let mut pins = List::new(alloc);
    for node in nodes {
        pins.push(Pin {
            place: node_at(forms, *node).place,
            number: number_at(forms, *node),
        })?;
    }
    Ok(pins)
}

fn pins_of(
    alloc: Global,
    forms: &Forms,
    items: &[u32],
    definition: Definition,
) -> Result<List<Pin>, AllocError>
    requires sound { IsSound forms.now }
    requires some { 0 < length forms.now.nodes }
    requires inside { (k : ℕ) → k < length items.now → slice_index items.now k < length forms.now.nodes }
    ensures { IfOk result (λ pins. pins ≡ map (pin_at forms.now) (pin_nodes forms.now items.now definition)) }
{
    match definition {
        Definition::Power
        | Definition::Ground
        | Definition::Phia
        | Definition::Phib
        | Definition::Phic => pins_at(alloc, forms, &[item(items, 1)]),
        Definition::SignalInput | Definition::SignalOutput => {
            pins_at(alloc, forms, &[item(items, 4)])
        }
        Definition::PortInput | Definition::PortOutput => {
            pins_at(alloc, forms, items_at(forms, item(items, 4)))
        }
        _ => Ok(List::new(alloc)),
    }
}

fn def_of(
    alloc: Global,
    forms: &Forms,
    ranks: &List<u32>,
    node: u32,
    definition: Definition,
) -> Result<Def, AllocError>
    requires sound { IsSound forms.now }
    requires inside { node < length forms.now.nodes }
    ensures { IfOk result (λ def. def
        ≡ def_of forms.now (slice_index ranks.now) node (items_of (kind_at forms.now node)) definition) }
{
    let items = items_at(forms, node);
    Ok(Def {
        place: node_at(forms, node).place,
        name: name_at(alloc, forms, item(items, 1))?,
        what: what_of(alloc, forms, ranks, items, definition)?,
        pins: pins_of(alloc, forms, items, definition)?,
    })
}

/// The definitions among the items of a program.
pub fn defs_of(
    alloc: Global,
    forms: &Forms,
    ranks: &List<u32>,
    items: &[u32],
) -> Result<List<Def>, AllocError>
    requires sound { IsSound forms.now }
    requires inside { (k : ℕ) → k < length items.now → slice_index items.now k < length forms.now.nodes }
    ensures { IfOk result (λ defs. defs ≡ filter_map (def_at forms.now (slice_index ranks.now)) items.now) }
{
    let mut defs = List::new(alloc);
    for node in items {
        if let Some(Layout::Def(definition)) = shape_of(forms, Class::Item, *node) {
            defs.push(def_of(alloc, forms, ranks, *node, definition)?)?;
        }
    }
    Ok(defs)
}
