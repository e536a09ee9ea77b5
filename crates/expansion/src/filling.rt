//! The items of a template, with operands in place of its arguments.

ghost use Rattle.std.specs.Prelude.{◌≡◌, ◌∷◌, [], ℕ, ◌<◌, IfOk, length};
ghost use Rattle.expansion.specs.Filling.{Extends, filled, filled_item, AreMentioned};

use crate::item::{Item, Stop};
use mp_base::List;
use mp_rules::EXPR_LIMIT;
use std::alloc::{AllocError, Global};

/// Adds an item, where there aren't as many as a program may have expressions.
pub(crate) fn push(items: &mut List<Item>, item: Item) -> Result<(), Stop>
    ensures { Extends items.old (item ∷ []) items.new result }
{
    if items.len() >= EXPR_LIMIT {
        return Err(Stop::TooLong);
    }
    items.push(item)?;
    Ok(())
}

/// Adds items.
pub(crate) fn append(items: &mut List<Item>, more: &[Item]) -> Result<(), Stop>
    ensures { Extends items.old more.now items.new result }
{
    for item in more {
        push(items, *item)?;
    }
    Ok(())
}

/// Adds what an item of a template becomes, with these words in place of arguments.
fn fill_item(
    item: Item,
    at: Option<u32>,
    words: &[List<Item>],
    items: &mut List<Item>,
) -> Result<(), Stop>
    ensures { Extends items.old (filled_item at words.now item) items.new result }
{
    match item {
        Item::Copied { expr, at: own } => {
            let at = own.or(at);
            push(items, Item::Copied { expr, at })
        }
        Item::Argument(argument) => {
            let argument = argument as usize;
            if argument < words.len() {
                append(items, words[argument].as_slice())
            } else {
                Ok(())
            }
        }
    }
}

/// Adds what a template becomes, with these words in place of arguments.
pub(crate) fn fill(
    template: &[Item],
    at: Option<u32>,
    words: &[List<Item>],
    items: &mut List<Item>,
) -> Result<(), Stop>
    ensures { Extends items.old (filled at words.now template.now) items.new result }
{
    for item in template {
        fill_item(*item, at, words, items)?;
    }
    Ok(())
}

/// Which of some arguments a template mentions.
pub(crate) fn mentioned(
    alloc: Global,
    template: &[Item],
    count: usize,
) -> Result<List<bool>, AllocError>
    ensures { IfOk result (AreMentioned template.now count) }
{
    let mut flags = List::from_vec(Vec::from_elem(alloc, false, count)?);
    for item in template {
        if let Item::Argument(argument) = item {
            let argument = *argument as usize;
            if argument < count {
                flags.put(argument, true);
            }
        }
    }
    Ok(flags)
}
