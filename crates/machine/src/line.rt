// A schedule as text, line by line.
ghost use Rattle.std.specs.Prelude.{Some};
ghost use Rattle.machine.specs.Lines.{line_of, Lined};

use crate::schedule::{Schedule, Slot};
use std::alloc::{AllocError, Global};
use std::fmt;

impl fmt::Display for Slot {
    ghost output = { λ s. Some (line_of s) };

    fn fmt<W: fmt::Write>(&self, f: &mut fmt::Formatter<W>) -> fmt::Result {
        let Slot { job, start, end } = *self;
        write!(f, "{job} {start} {end}")
    }
}

impl Schedule {
    /// The listing line at a place from 1: job, start and end; none where there is no such place. Only want of memory keeps it back.
    pub fn line(&self, heap: Global, place: usize) -> Result<Option<String>, AllocError>
        ensures { Lined self.now.slots.items place result }
    {
        let Some(slot) = self.slot(place) else {
            return Ok(None);
        };
        let text = slot.to_string(heap)?;
        Ok(Some(text))
    }
}
