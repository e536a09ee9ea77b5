//! The places and moves of all processes.

ghost use Rattle.std.specs.Prelude.{◌≡◌, ◌<◌, length, map, slice_index};
ghost use Rattle.std.specs.List.{AllByRecursion};
ghost use Rattle.mp_program.specs.State.{SeatsFit, places_taken};
ghost use Rattle.mp_program.specs.Step.{next_seats};
ghost use Rattle.form_effects.specs.Linked.{AreLinks};
ghost use Rattle.program_clock.specs.Remembered.{seat_of};

use crate::seat::Seat;
use form_effects::{Links, jump_of};
use mp_program::{Process, Program, laws};

/// The form at a seat's place.
fn form_at(process: &Process, seat: &Seat) -> u32
    requires { seat.now.place < length process.now.forms }
    ensures { result ≡ slice_index process.now.forms seat.now.place }
{
    process.forms.as_slice()[seat.place]
}

/// Gives the active form of each process.
pub(crate) fn take_places(program: &Program, seats: &[Seat], places: &mut [u32])
    requires seats { SeatsFit program.now.processes (map seat_of seats.now) }
    requires size { length places.old ≡ length program.now.processes }
    ensures taken { places.new ≡ places_taken program.now.processes (map seat_of seats.now) }
    ensures inside { AllByRecursion (λ f. f < length program.now.forms) places.new }
{
    laws::sound(program);
    for (i, process) in program.processes.as_slice().iter().enumerate() {
        places[i] = form_at(process, &seats[i]);
    }
}

/// Moves each process, which is at one of these forms.
pub(crate) fn advance_seats(
    program: &Program,
    links: &Links,
    places: &[u32],
    env: &[u64],
    seats: &mut [Seat],
)
    requires linked { AreLinks program.now links.now }
    requires seats { SeatsFit program.now.processes (map seat_of seats.old) }
    requires placed { places.now ≡ places_taken program.now.processes (map seat_of seats.old) }
    requires inside { AllByRecursion (λ f. f < length program.now.forms) places.now }
    ensures { map seat_of seats.new ≡ next_seats program.now env.now program.now.processes (map seat_of seats.old) }
{
    for (i, process) in program.processes.as_slice().iter().enumerate() {
        let jump = jump_of(program, links, env, i, places[i]);
        seats[i].advance(process, jump);
    }
}
