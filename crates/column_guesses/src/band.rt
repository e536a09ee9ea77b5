//! In which columns the segments of a band are marked.

use crate::lists::{Groups, Member, count, get, put};
use nor_net::{Net, NetId, NetKind, Phase};
use organelles::Chain;
use path_form::DataPath;
use std::alloc::{AllocError, Global};

/// A band, by its columns and segments. Columns are numbered from 0: those of the phases, of casts and of lifts, which
/// hold their places, and then those of nets, in the order of nets. The segments are those of nets and of the phases.
#[derive(Drop)]
pub(crate) struct Band {
    pub held: usize,
    pub columns: usize,
    pub segments: usize,
    at_columns: Groups,
    of_segments: Groups,
}

// What stands in a band beside its net: the nets of casts and lifts, those where a chain ends or to which a program gives
// a bit, and the chains.
#[derive(Drop)]
struct Ends {
    joints: Vec<u32>,
    ends: Vec<u32>,
    chains: Vec<Chain>,
}

// A phase's place among the three.
fn phase_index(phase: Phase) -> usize {
    match phase {
        Phase::A => 0,
        Phase::B => 1,
        Phase::C => 2,
    }
}

// The segments that are marked in the column of a net, beside its own.
fn push_read(read: &mut Vec<usize>, net: &Net, n: u32) -> Result<(), AllocError> {
    if n >= net.len() {
        return Ok(());
    }
    match net.kind(NetId(n)) {
        NetKind::Input => {}
        NetKind::Gate => {
            for input in net.gate_inputs(NetId(n)) {
                read.push(input.0 as usize)?;
            }
        }
        NetKind::Latch { phase, source } => {
            if let Some(data) = source {
                read.push(data.0 as usize)?;
            }
            read.push((net.len() as usize).saturating_add(phase_index(phase)))?;
        }
    }
    Ok(())
}

// How often each net is read, by gates, latches, joints and chains.
fn readers(alloc: Global, net: &Net, ends: &Ends) -> Result<Vec<usize>, AllocError> {
    let mut readers = Vec::from_elem(alloc, 0, net.len() as usize)?;
    let mut read = Vec::new(alloc);
    for n in 0..net.len() {
        push_read(&mut read, net, n)?;
    }
    for net in &read {
        count(readers.as_mut_slice(), *net);
    }
    for net in &ends.joints {
        count(readers.as_mut_slice(), *net as usize);
    }
    for chain in &ends.chains {
        count(readers.as_mut_slice(), start(*chain));
    }
    Ok(readers)
}

// Where a chain comes from.
fn start(chain: Chain) -> usize {
    match chain {
        Chain::Up { from, .. } | Chain::Down { from, .. } => from.0 as usize,
    }
}

// Where a chain ends.
fn end(chain: Chain) -> u32 {
    match chain {
        Chain::Up { to, .. } | Chain::Down { to, .. } => to.0,
    }
}

fn is_input(net: &Net, n: u32) -> bool {
    n < net.len() && net.kind(NetId(n)) == NetKind::Input
}

// The column of each net that has one, and 0 of others: of inputs those have one where a chain ends, a program gives a
// bit or nothing reads.
fn columns(alloc: Global, net: &Net, ends: &Ends) -> Result<Vec<usize>, AllocError> {
    let mut columns = Vec::from_elem(alloc, 0, net.len() as usize)?;
    for net in &ends.ends {
        put(columns.as_mut_slice(), *net as usize, 1);
    }
    let readers = readers(alloc, net, ends)?;
    let mut next = held(ends);
    for n in 0..net.len() {
        let index = n as usize;
        let is_end = get(columns.as_slice(), index) == 1;
        let is_unread = get(readers.as_slice(), index) == 0;
        if is_end || is_unread || !is_input(net, n) {
            put(columns.as_mut_slice(), index, next);
            next = next.saturating_add(1);
        }
    }
    Ok(columns)
}

// How many columns hold their places.
fn held(ends: &Ends) -> usize {
    ends.joints.len().saturating_add(3)
}

// The marks of phases, casts and lifts.
fn push_joints(marks: &mut Vec<Member>, nets: usize, ends: &Ends) -> Result<(), AllocError> {
    for phase in 0..3 {
        marks.push(Member {
            group: phase,
            member: nets.saturating_add(phase),
        })?;
    }
    for (i, net) in ends.joints.as_slice().iter().enumerate() {
        marks.push(Member {
            group: i.saturating_add(3),
            member: *net as usize,
        })?;
    }
    Ok(())
}

// The marks in the columns of nets.
fn push_homes(
    alloc: Global,
    marks: &mut Vec<Member>,
    net: &Net,
    columns: &[usize],
) -> Result<(), AllocError> {
    for n in 0..net.len() {
        let column = get(columns, n as usize);
        if column != 0 {
            let mut read = Vec::new(alloc);
            read.push(n as usize)?;
            push_read(&mut read, net, n)?;
            for segment in read {
                marks.push(Member {
                    group: column,
                    member: segment,
                })?;
            }
        }
    }
    Ok(())
}

// The marks of chains, in the columns of their ends.
fn push_chains(
    marks: &mut Vec<Member>,
    chains: &[Chain],
    columns: &[usize],
) -> Result<(), AllocError> {
    for chain in chains {
        marks.push(Member {
            group: get(columns, end(*chain) as usize),
            member: start(*chain),
        })?;
    }
    Ok(())
}

// The marks of columns, each once, by segments.
fn turned(
    alloc: Global,
    columns: usize,
    segments: usize,
    at_columns: &Groups,
) -> Result<Vec<Member>, AllocError> {
    let mut turned = Vec::new(alloc);
    // One more than the last column in which a segment was met.
    let mut met = Vec::from_elem(alloc, 0, segments)?;
    for column in 0..columns {
        for segment in at_columns.at(column) {
            if get(met.as_slice(), *segment) <= column {
                put(met.as_mut_slice(), *segment, column.saturating_add(1));
                turned.push(Member {
                    group: *segment,
                    member: column,
                })?;
            }
        }
    }
    Ok(turned)
}

// The same marks, by columns.
fn turned_back(alloc: Global, marks: &[Member]) -> Result<Vec<Member>, AllocError> {
    let mut back = Vec::new(alloc);
    for mark in marks {
        back.push(Member {
            group: mark.member,
            member: mark.group,
        })?;
    }
    Ok(back)
}

// One more than the last column.
fn count_columns(held: usize, columns: &[usize]) -> usize {
    let mut count = held;
    for column in columns {
        count = count.max(column.saturating_add(1));
    }
    count
}

impl Band {
    fn of(alloc: Global, net: &Net, ends: &Ends) -> Result<Band, AllocError> {
        let nets = net.len() as usize;
        let segments = nets.saturating_add(3);
        let homes = columns(alloc, net, ends)?;
        let columns = count_columns(held(ends), homes.as_slice());
        let mut marks = Vec::new(alloc);
        push_joints(&mut marks, nets, ends)?;
        push_homes(alloc, &mut marks, net, homes.as_slice())?;
        push_chains(&mut marks, ends.chains.as_slice(), homes.as_slice())?;
        let all = Groups::of(alloc, columns, marks.as_slice())?;
        let once = turned(alloc, columns, segments, &all)?;
        let back = turned_back(alloc, once.as_slice())?;
        Ok(Band {
            held: held(ends),
            columns,
            segments,
            at_columns: Groups::of(alloc, columns, back.as_slice())?,
            of_segments: Groups::of(alloc, segments, once.as_slice())?,
        })
    }

    /// The control.
    pub fn control(alloc: Global, path: &DataPath) -> Result<Band, AllocError> {
        let mut joints = Vec::new(alloc);
        for cast in path.casts.as_slice() {
            joints.push(cast.control.0)?;
        }
        for lift in path.lifts.as_slice() {
            joints.push(lift.control.0)?;
        }
        let ends = Ends {
            joints,
            ends: Vec::new(alloc),
            chains: Vec::new(alloc),
        };
        Band::of(alloc, &path.control, &ends)
    }

    /// Each slice.
    pub fn slices(alloc: Global, path: &DataPath) -> Result<Band, AllocError> {
        let mut joints = Vec::new(alloc);
        for cast in path.casts.as_slice() {
            joints.push(cast.slice.0)?;
        }
        for lift in path.lifts.as_slice() {
            joints.push(lift.from.0)?;
        }
        let chains = Vec::from_slice(alloc, path.slices.chains.as_slice())?;
        let mut ends = Vec::new(alloc);
        for chain in &chains {
            ends.push(end(*chain))?;
        }
        for program in path.slices.programs.as_slice() {
            ends.push(program.net.0)?;
        }
        let ends = Ends {
            joints,
            ends,
            chains,
        };
        Band::of(alloc, &path.slices.net, &ends)
    }

    /// The segments that are marked in a column.
    pub fn at(&self, column: usize) -> &[usize] {
        self.at_columns.at(column)
    }

    /// The columns in which a segment is marked.
    pub fn marks(&self, segment: usize) -> &[usize] {
        self.of_segments.at(segment)
    }
}
