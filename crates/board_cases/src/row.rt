//! Rows of the table.

/// A program, how many clocks it runs, and the words of its links.
#[derive(Clone, Copy)]
pub(crate) struct Row<'a> {
    pub source: &'a str,
    pub clocks: u32,
    pub links: &'a str,
}

// A part of a line, of which `|` ends each but the last.
fn field(line: &str, index: usize) -> &str {
    line.split('|').nth(index).unwrap_or("")
}

/// The row of a line.
pub(crate) fn row_of(line: &str) -> Row<'_> {
    Row {
        source: field(line, 0),
        clocks: field(line, 1).parse::<u32>().unwrap_or(0),
        links: field(line, 2),
    }
}
