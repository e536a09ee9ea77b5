//! Lists to which things are only added, and parts of them.

ghost use Rattle.std.specs.Prelude.{◌≡◌, ◌+◌, [], ◌∷◌, ◌++◌, IfOk, OnOk, OnErr, length, slice_get, Some};
ghost use Rattle.cif_list.specs.Growing.{IsGrown, IsPart, part};

use mp_base::NoMemory;

const LIMIT: usize = u32::MAX as usize;

/// A part of a list, from an index up to another.
#[derive(Clone, Copy, Drop)]
pub(crate) struct Span {
    pub from: u32,
    pub to: u32,
}

/// The part that so many more would be, behind those that are there. No list has 2^32 or more.
pub(crate) fn span_behind(count: usize, more: usize) -> Result<Span, NoMemory>
    ensures from { IfOk result (λ span. span.from ≡ count) }
    ensures to { IfOk result (λ span. span.to ≡ count + more) }
{
    if count > LIMIT || more > LIMIT - count {
        return Err(NoMemory);
    }
    Ok(Span {
        from: count as u32,
        to: (count + more) as u32,
    })
}

/// Adds all of these, and says which part they are.
pub(crate) fn append<T: Copy + Drop>(arena: &mut Vec<T>, items: &[T]) -> Result<Span, NoMemory>
    ensures grown { IsGrown arena.old.items arena.new.items }
    ensures within { IfOk result (IsPart arena.new.items) }
    ensures same { IfOk result (λ span. part arena.new.items span ≡ items.now) }
{
    let span = span_behind(arena.len(), items.len())?;
    arena.extend_from_slice(items)?;
    Ok(span)
}

/// Adds one. Want of memory leaves the list as it was.
pub(crate) fn push<T: Copy + Drop>(arena: &mut Vec<T>, item: T) -> Result<(), NoMemory>
    ensures ok { OnOk result (arena.new.items ≡ arena.old.items ++ item ∷ []) }
    ensures err { OnErr result (arena.new.items ≡ arena.old.items) }
{
    match arena.push(item) {
        Ok(()) => Ok(()),
        Err(_) => Err(NoMemory),
    }
}

/// Adds one, and says at which index it is.
pub(crate) fn add<T: Copy + Drop>(arena: &mut Vec<T>, item: T) -> Result<u32, NoMemory>
    ensures grown { IsGrown arena.old.items arena.new.items }
    ensures here { IfOk result (λ index. slice_get arena.new.items index ≡ Some item) }
{
    let span = span_behind(arena.len(), 1)?;
    push(arena, item)?;
    Ok(span.from)
}

/// The part of a list.
pub(crate) fn part_of<T>(items: &[T], span: Span) -> &[T]
    requires { IsPart items.now span }
    ensures { result.now ≡ part items.now span }
{
    &items[span.from as usize..span.to as usize]
}
