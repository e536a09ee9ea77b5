//! Changes of the borders between cells of different colours.

ghost use Rattle.std.specs.Prelude.{◌≡◌, ◌≢◌, ◌⊎◌, ℕ, ◌<◌, ◌≤◌, false, length, set};
ghost use Rattle.cell_set.specs.Sets.{has, room_of};
ghost use Rattle.kept_runs.specs.Borders.{IsFilled};

use cell_set::CellSet;

/// Takes the borders from a cell up to another out.
pub(crate) fn clear(borders: &mut CellSet, from: u32, to: u32)
    requires { to ≤ room_of borders.old }
    ensures inside { (c : ℕ) → from ≤ c → c < to → has borders.new c ≡ false }
    ensures beside { (c : ℕ) → (c < from) ⊎ (to ≤ c) → has borders.new c ≡ has borders.old c }
    ensures room { room_of borders.new ≡ room_of borders.old }
{
    let mut at = from;
    while at < to {
        let Some(border) = borders.first_from(at) else {
            return;
        };
        if to <= border {
            return;
        }
        borders.remove(border);
        at = border + 1;
    }
}

/// Notes the colour from a cell on, which is a border or none.
pub(crate) fn put(
    borders: &mut CellSet,
    colours: &mut Vec<u8>,
    cell: u32,
    colour: u8,
    is_border: bool,
)
    requires room { cell < room_of borders.old }
    requires within { cell < length colours.old.items }
    ensures own { has borders.new cell ≡ is_border }
    ensures others { (c : ℕ) → c ≢ cell → has borders.new c ≡ has borders.old c }
    ensures noted { colours.new.items ≡ set colours.old.items cell colour }
    ensures room { room_of borders.new ≡ room_of borders.old }
{
    colours[cell as usize] = colour;
    if is_border {
        borders.insert(cell);
        return;
    }
    borders.remove(cell);
}

/// Gives the cells from one up to another one colour, of which the first is a border or none.
pub(crate) fn fill(
    borders: &mut CellSet,
    colours: &mut Vec<u8>,
    from: u32,
    to: u32,
    colour: u8,
    is_border: bool,
)
    requires order { from < to }
    requires room { length colours.old.items < room_of borders.old }
    requires within { to ≤ length colours.old.items }
    ensures { IsFilled borders.old borders.new colours.old.items colours.new.items from to colour is_border }
{
    clear(borders, from, to);
    put(borders, colours, from, colour, is_border);
}
