//! What nodes hold: an empty name, 0 or no items where a node is of another kind.

ghost use Rattle.std.specs.Prelude.{◌≡◌, ◌<◌, ◌≤◌, ℕ, IfOk, drop, length, slice_index};
ghost use Rattle.form_reader.specs.Sound.{IsSound, items_of, kind_at, node};
ghost use Rattle.mp_shapes.specs.Layout.{is_symbol};
ghost use Rattle.mp_entries.specs.Entries.{name_at, number_at};

use form_reader::{Forms, Kind, Node};
use mp_base::Name;
use std::alloc::{AllocError, Global};

/// A node by its index.
pub fn node_at(forms: &Forms, index: u32) -> &Node
    requires { index < length forms.now.nodes }
    ensures { result.now ≡ node forms.now index }
{
    forms.nodes.at(index)
}

/// The items of a list, its head included.
pub fn items_at(forms: &Forms, node: u32) -> &[u32]
    requires sound { IsSound forms.now }
    requires inside { node < length forms.now.nodes }
    ensures value { result.now ≡ items_of (kind_at forms.now node) }
    ensures inside { (k : ℕ) → k < length result.now → slice_index result.now k < length forms.now.nodes }
{
    match &node_at(forms, node).kind {
        Kind::Group(items) => items.as_slice(),
        _ => &[],
    }
}

/// The items of a program or process behind its name and number.
pub fn elements_at(forms: &Forms, node: u32) -> &[u32]
    requires sound { IsSound forms.now }
    requires inside { node < length forms.now.nodes }
    ensures value { result.now ≡ drop 3 (items_of (kind_at forms.now node)) }
    ensures inside { (k : ℕ) → k < length result.now → slice_index result.now k < length forms.now.nodes }
    ensures few { length result.now ≤ length forms.now.nodes }
{
    behind(items_at(forms, node), 3)
}

/// The bytes of a symbol, as a name.
pub fn name_at(alloc: Global, forms: &Forms, node: u32) -> Result<Name, AllocError>
    requires { node < length forms.now.nodes }
    ensures { IfOk result (λ name. name ≡ name_at forms.now node) }
{
    match &node_at(forms, node).kind {
        Kind::Symbol(name) => Name::from_slice(alloc, name.bytes()),
        _ => Name::from_slice(alloc, &[]),
    }
}

/// The value of a number.
pub fn number_at(forms: &Forms, node: u32) -> u64
    requires { node < length forms.now.nodes }
    ensures { result ≡ number_at forms.now node }
{
    match &node_at(forms, node).kind {
        Kind::Number(value) => *value,
        _ => 0,
    }
}

/// Whether a node is a symbol.
pub fn is_symbol(forms: &Forms, node: u32) -> bool
    requires { node < length forms.now.nodes }
    ensures { result ≡ is_symbol (kind_at forms.now node) }
{
    match &node_at(forms, node).kind {
        Kind::Symbol(_) => true,
        _ => false,
    }
}

/// The item at an index, or 0 where there are fewer items.
pub fn item(items: &[u32], index: usize) -> u32
    ensures { result ≡ slice_index items.now index }
{
    if index < items.len() { items[index] } else { 0 }
}

/// The items from an index on.
pub fn behind(items: &[u32], index: usize) -> &[u32]
    ensures { result.now ≡ drop index items.now }
{
    if index <= items.len() {
        &items[index..]
    } else {
        &[]
    }
}
