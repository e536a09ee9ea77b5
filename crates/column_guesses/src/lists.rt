//! Lists of numbers, read and written without regard to their ends.

use std::alloc::{AllocError, Global};

/// The entry at an index, 0 past the end.
pub(crate) fn get(entries: &[usize], index: usize) -> usize {
    if index < entries.len() {
        entries[index]
    } else {
        0
    }
}

/// Writes the entry at an index, if there is one.
pub(crate) fn put(entries: &mut [usize], index: usize, entry: usize) {
    if index < entries.len() {
        entries[index] = entry;
    }
}

/// Adds one to the entry at an index, if there is one.
pub(crate) fn count(entries: &mut [usize], index: usize) {
    if index < entries.len() {
        entries[index] = entries[index].wrapping_add(1);
    }
}

/// Takes one from the entry at an index, if there is one. What falls below 0 comes back by as many counts.
pub(crate) fn uncount(entries: &mut [usize], index: usize) {
    if index < entries.len() {
        entries[index] = entries[index].wrapping_sub(1);
    }
}

/// A member of a group.
#[derive(Clone, Copy)]
pub(crate) struct Member {
    pub group: usize,
    pub member: usize,
}

/// Groups of numbers.
#[derive(Drop)]
pub(crate) struct Groups {
    // Behind the last member of each group.
    ends: Vec<usize>,
    members: Vec<usize>,
}

// From the sizes of groups to where they begin, one behind the other.
fn begin(sizes: &mut [usize]) {
    let mut start: usize = 0;
    for size in sizes.iter_mut() {
        let behind = start.saturating_add(*size);
        *size = start;
        start = behind;
    }
}

impl Groups {
    /// So many groups of these members, each in the order in which its members are given.
    pub fn of(alloc: Global, groups: usize, members: &[Member]) -> Result<Groups, AllocError> {
        let mut ends = Vec::from_elem(alloc, 0, groups)?;
        for member in members {
            count(ends.as_mut_slice(), member.group);
        }
        begin(ends.as_mut_slice());
        let mut placed = Vec::from_elem(alloc, 0, members.len())?;
        for member in members {
            let at = get(ends.as_slice(), member.group);
            put(placed.as_mut_slice(), at, member.member);
            count(ends.as_mut_slice(), member.group);
        }
        Ok(Groups {
            ends,
            members: placed,
        })
    }

    /// The members of a group.
    pub fn at(&self, group: usize) -> &[usize] {
        let start = if group == 0 {
            0
        } else {
            get(self.ends.as_slice(), group.saturating_sub(1))
        };
        let end = get(self.ends.as_slice(), group);
        if start <= end && end <= self.members.len() {
            &self.members.as_slice()[start..end]
        } else {
            &[]
        }
    }
}
