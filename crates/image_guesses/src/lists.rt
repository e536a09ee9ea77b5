//! Lists, read and written without regard to their ends.

/// The entry at an index, or another one past the end.
pub(crate) fn get<T: Copy>(entries: &[T], index: usize, other: T) -> T {
    if index < entries.len() {
        entries[index]
    } else {
        other
    }
}

/// Writes the entry at an index, if there is one.
pub(crate) fn put<T: Copy>(entries: &mut [T], index: usize, entry: T) {
    if index < entries.len() {
        entries[index] = entry;
    }
}
