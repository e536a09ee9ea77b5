//! What lasts from clock to clock.

ghost use Rattle.std.specs.Prelude.{◌≡◌, ◌+◌, ◌<◌, ◌∷◌, ◌++◌, [], length, take, drop, replicate, map, slice_index};
ghost use Rattle.std.specs.Prelude.{IfOk};
ghost use Rattle.mp_program.specs.State.{zero_seat};
ghost use Rattle.mp_program.specs.Step.{wrapped};
ghost use Rattle.program_clock.specs.Remembered.{seat_of, emptied};
ghost use Rattle.program_clock.specs.Moved.{seat_after};

use form_effects::Jump;
use mp_program::Process;
use std::alloc::{AllocError, Global};

/// A place of a process, and the places that its calls return to.
#[derive(Drop)]
pub(crate) struct Seat {
    pub place: usize,
    pub stack: Vec<usize>,
}

/// A value for each definition, and a seat for each process.
#[derive(Drop)]
pub(crate) struct Memory {
    pub stored: Vec<u64>,
    pub seats: Vec<Seat>,
}

/// The place after this one, or 0 after the last.
fn next_place(process: &Process, place: usize) -> usize
    requires { place < length process.now.forms }
    ensures { result ≡ wrapped process.now (place + 1) }
{
    let last = process.forms.len() - 1;
    if place < last { place + 1 } else { 0 }
}

/// Puts a place at the front, and drops the last one.
fn push_front(stack: &mut [usize], place: usize)
    ensures { stack.new ≡ take (length stack.old) (place ∷ stack.old) }
{
    let mut carried = place;
    for i in 0..stack.len() {
        let next = stack[i];
        stack[i] = carried;
        carried = next;
    }
}

/// Takes the place at the front, and puts place 0 at the end.
fn pop_front(stack: &mut [usize]) -> usize
    ensures front { result ≡ slice_index stack.old 0 }
    ensures rest { stack.new ≡ take (length stack.old) (drop 1 stack.old ++ 0 ∷ []) }
{
    let front = if stack.len() > 0 { stack[0] } else { 0 };
    for i in 0..stack.len() {
        stack[i] = if i + 1 < stack.len() { stack[i + 1] } else { 0 };
    }
    front
}

impl Seat {
    /// Moves by a jump, or on to the next place.
    pub(crate) fn advance(&mut self, process: &Process, jump: Option<Jump>)
        requires place { self.old.place < length process.now.forms }
        requires stack { length self.old.stack.items ≡ process.now.depth }
        ensures { seat_of self.new ≡ seat_after process.now (seat_of self.old) jump }
    {
        match jump {
            None => self.place = next_place(process, self.place),
            Some(Jump::To(place)) => self.place = place,
            Some(Jump::Into(place)) => {
                push_front(&mut self.stack, next_place(process, self.place));
                self.place = place;
            }
            Some(Jump::Back) => self.place = pop_front(&mut self.stack),
        }
    }

    /// Returns to place 0, with a stack of places 0.
    fn clear(&mut self)
        ensures { seat_of self.new ≡ emptied (seat_of self.old) }
    {
        self.place = 0;
        self.stack.fill(0);
    }
}

pub(crate) fn clear_seats(seats: &mut [Seat])
    ensures { map seat_of seats.new ≡ map emptied (map seat_of seats.old) }
{
    for i in 0..seats.len() {
        seats[i].clear();
    }
}

/// The seats of the zero state.
pub(crate) fn zero_seats(alloc: Global, processes: &[Process]) -> Result<Vec<Seat>, AllocError>
    ensures { IfOk result (λ list. map seat_of list.items ≡ map zero_seat processes.now) }
{
    let mut list = Vec::new(alloc);
    for process in processes {
        let stack = vec![in alloc; 0; process.depth as usize]?;
        list.push(Seat { place: 0, stack })?;
    }
    Ok(list)
}
