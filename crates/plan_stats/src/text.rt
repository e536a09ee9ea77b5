//! The lines of a chip's size.

ghost use Rattle.std.specs.Prelude.{◌≡◌, ◌++◌, IfOk, OnOk};
ghost use Rattle.plan_stats.specs.Text.{group_line, group_lines, number_line, stats_lines};

use mp_base::push_number;
use std::alloc::{AllocError, Global};
use track_assign::Tracks;

// Adds a word, a number and a line feed.
fn push_line(text: &mut Vec<u8>, word: &[u8], number: u64) -> Result<(), AllocError>
    ensures { OnOk result (text.new.items ≡ text.old.items ++ number_line word.now number) }
{
    text.extend_from_slice(word)?;
    push_number(text, number)?;
    text.push(b'\n')?;
    Ok(())
}

// Adds the line of a group.
fn push_group(text: &mut Vec<u8>, index: u64, tracks: &Tracks) -> Result<(), AllocError>
    ensures { OnOk result (text.new.items ≡ text.old.items ++ group_line index tracks.now) }
{
    text.extend_from_slice(b"group ")?;
    push_number(text, index)?;
    text.extend_from_slice(b" tracks ")?;
    push_number(text, u64::from(tracks.rows))?;
    push_line(text, b" column ", u64::from(tracks.column))?;
    Ok(())
}

// Adds the lines of all groups.
fn push_groups(text: &mut Vec<u8>, groups: &[Tracks]) -> Result<(), AllocError>
    ensures { OnOk result (text.new.items ≡ text.old.items ++ group_lines 0 groups.now) }
{
    for index in 0..groups.len() {
        push_group(text, index as u64, &groups[index])?;
    }
    Ok(())
}

/// The lines of a weight, of columns, of rows and of the groups of tracks.
pub(crate) fn lines_of(
    alloc: Global,
    weight: u32,
    columns: u32,
    rows: u32,
    groups: &[Tracks],
) -> Result<Vec<u8>, AllocError>
    ensures { IfOk result (λ text. text.items ≡ stats_lines weight columns rows groups.now) }
{
    let mut text = Vec::new(alloc);
    push_line(&mut text, b"weight ", u64::from(weight))?;
    push_line(&mut text, b"columns ", u64::from(columns))?;
    push_line(&mut text, b"rows ", u64::from(rows))?;
    push_groups(&mut text, groups)?;
    Ok(text)
}
