//! Which nodes have entries, and the index of each entry.

ghost use Rattle.std.specs.Prelude.{◌≡◌, ◌<◌, ◌^◌, IfOk, length};
ghost use Rattle.form_reader.specs.Sound.{kind_at};
ghost use Rattle.mp_entries.specs.Entries.{is_expr, is_form, ranks, stands_for_expr, stands_for_form};

use crate::nodes::is_symbol;
use form_reader::Forms;
use mp_base::List;
use mp_shapes::Class;
use std::alloc::{AllocError, Global};

/// For each node the number of expressions and of forms before it.
#[derive(Drop)]
pub struct Ranks {
    pub exprs: List<u32>,
    pub forms: List<u32>,
}

/// Whether a node of this class stands for an expression.
pub fn is_expr(class: Option<Class>) -> bool
    ensures { result ≡ stands_for_expr class }
{
    match class {
        Some(Class::Value) => true,
        _ => false,
    }
}

/// Whether a node of this class stands for a form.
pub fn is_form(forms: &Forms, node: u32, class: Option<Class>) -> bool
    requires { node < length forms.now.nodes }
    ensures { result ≡ stands_for_form (kind_at forms.now node) class }
{
    match class {
        Some(Class::Action) => true,
        Some(Class::Element) => !is_symbol(forms, node),
        _ => false,
    }
}

/// The index of the entry of each node.
pub fn ranks_of(
    alloc: Global,
    forms: &Forms,
    classes: &List<Option<Class>>,
) -> Result<Ranks, AllocError>
    requires size { length classes.now ≡ length forms.now.nodes }
    requires small { length forms.now.nodes < 2 ^ 32 }
    ensures exprs { IfOk result (λ r. r.exprs ≡ ranks (is_expr classes.now) (length forms.now.nodes)) }
    ensures forms { IfOk result (λ r. r.forms ≡ ranks (is_form forms.now classes.now) (length forms.now.nodes)) }
{
    let mut ranks = Ranks {
        exprs: List::new(alloc),
        forms: List::new(alloc),
    };
    let mut expr_count = 0u32;
    let mut form_count = 0u32;
    for node in 0..forms.nodes.len() as u32 {
        ranks.exprs.push(expr_count)?;
        ranks.forms.push(form_count)?;
        let class = *classes.at(node);
        if is_expr(class) {
            expr_count += 1;
        }
        if is_form(forms, node, class) {
            form_count += 1;
        }
    }
    Ok(ranks)
}
