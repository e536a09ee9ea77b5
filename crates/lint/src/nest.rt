//! What stands around the forms of a program.

use mp_program::{FormKind, Program};
use std::alloc::{AllocError, Global};

// How deep forms are followed: texts nest no deeper.
const DEEP: usize = 70;

/// The branch of a `cond` that a form stands in, with no other between, and the form of a process at the top. Forms of
/// one seat are active together.
#[derive(Clone, Copy, PartialEq, Eq)]
pub(crate) struct Seat {
    cond: Option<usize>,
    branch: usize,
    home: Option<usize>,
}

/// The seats of all forms.
#[derive(Drop)]
pub(crate) struct Nest {
    seats: Vec<Seat>,
}

impl Seat {
    fn always() -> Seat {
        Seat {
            cond: None,
            branch: 0,
            home: None,
        }
    }

    /// Whether what stands here is active in each clock.
    pub fn is_always(self) -> bool {
        self.cond.is_none() && self.home.is_none()
    }
}

impl Nest {
    /// The seats of a program's forms, where a form stands behind those around it.
    ///
    /// # Errors
    /// Want of memory.
    pub fn of(alloc: Global, program: &Program) -> Result<Nest, AllocError> {
        let forms = program.forms.as_slice();
        let mut nest = Nest {
            seats: Vec::from_elem(alloc, Seat::always(), forms.len())?,
        };
        for process in program.processes.as_slice() {
            for form in process.forms.as_slice() {
                let home = Some(*form as usize);
                let seat = Seat {
                    home,
                    ..Seat::always()
                };
                nest.put(&[*form], seat);
            }
        }
        for (n, form) in forms.iter().enumerate() {
            nest.put_inner(n, &form.kind);
        }
        Ok(nest)
    }

    fn put(&mut self, forms: &[u32], seat: Seat) {
        for form in forms {
            if let Some(place) = self.seats.get_mut(*form as usize) {
                *place = seat;
            }
        }
    }

    fn put_inner(&mut self, n: usize, kind: &FormKind) {
        let around = self.seat(n);
        match kind {
            FormKind::Par(forms) => self.put(forms.as_slice(), around),
            FormKind::Cond(branches) => {
                for (branch, body) in branches.as_slice().iter().enumerate() {
                    let seat = Seat {
                        cond: Some(n),
                        branch,
                        home: around.home,
                    };
                    self.put(body.body.as_slice(), seat);
                }
            }
            _ => {}
        }
    }

    pub fn seat(&self, form: usize) -> Seat {
        self.seats.get(form).copied().unwrap_or(Seat::always())
    }

    // Whether a form, or one around it, has a seat, and isn't the form of this number.
    fn is_under(&self, form: usize, other: usize) -> bool {
        let seat = self.seat(other);
        let mut at = form;
        for _ in 0..DEEP {
            let found = self.seat(at);
            if at != other && found == seat {
                return true;
            }
            match found.cond {
                Some(cond) => at = cond,
                None => return false,
            }
        }
        false
    }

    /// Whether two forms may be active together, whatever the guards are: they don't stand in two branches of one
    /// `cond`, nor in two forms of a process.
    pub fn is_beside(&self, form: usize, other: usize) -> bool {
        let mut at = other;
        for _ in 0..DEEP {
            if self.is_under(form, at) {
                return true;
            }
            match self.seat(at).cond {
                Some(cond) => at = cond,
                None => return false,
            }
        }
        false
    }
}
