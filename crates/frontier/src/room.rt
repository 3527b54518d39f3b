// A row of entries with room for a fixed number of them.
ghost use Rattle.std.specs.Prelude.{◌≤◌, vec_len, vec_capacity};

use crate::entry::Entry;
use heap::Full;
use std::alloc::{AllocError, Global};

/// The entries that wait, and how many may. The memory for all of them is got when the room is made.
#[derive(Drop)]
pub(crate) struct Room {
    pub(crate) entries: Vec<Entry>,
    // beside the row: the line's capacity is what it was made for, whatever room its `Vec` has
    pub(crate) capacity: usize,
    ghost fits: { vec_len entries ≤ capacity },
    ghost reserved: { capacity ≤ vec_capacity entries },
}

impl Room {
    ghost use Rattle.std.specs.Prelude.{◌≡◌, [], IfOk};
    ghost use Rattle.frontier.specs.Rooms.{PutBehind};

    /// A row without entries, and memory for `capacity` of them.
    pub(crate) fn new(heap: Global, capacity: usize) -> Result<Room, AllocError>
        ensures empty { IfOk result (λ room. room.entries.items ≡ []) }
        ensures capacity { IfOk result (λ room. room.capacity ≡ capacity) }
    {
        let entries = Vec::with_capacity(heap, capacity)?;
        Ok(Room { entries, capacity })
    }

    /// Puts an entry behind the others, unless there are as many as may be.
    pub(crate) fn add(&mut self, waiting: Entry) -> Result<(), Full>
        ensures { PutBehind self.old waiting result self.new }
    {
        if self.entries.len() == self.capacity {
            return Err(Full);
        }
        self.entries.push_reserved(waiting);
        Ok(())
    }
}
