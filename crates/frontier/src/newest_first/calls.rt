// The calls of the newest-first line.
ghost use Rattle.std.specs.Prelude.{◌≡◌, ◌≤◌, ◌↔◌, [], All, IfOk, IfSome, IsNone};
ghost use Rattle.std.specs.List.{Any};
ghost use Rattle.frontier.specs.Bags.{Least, bag_of};
ghost use Rattle.frontier.specs.Disciplines.{Determined};
ghost use Rattle.frontier.specs.Named.{newest_first};
ghost use Rattle.frontier.specs.Holding.{row_of};

use crate::entry::Entry;
use crate::line::WaitingLine;
use crate::newest_first::NewestFirstLine;
use crate::room::Room;
use heap::Full;
use std::alloc::{AllocError, Global};

impl NewestFirstLine {
    /// An empty line with memory for `capacity` entries.
    pub fn new(heap: Global, capacity: usize) -> Result<NewestFirstLine, AllocError>
        ensures empty { IfOk result (λ l. row_of l ≡ record { capacity = capacity; entries = [] }) }
        ensures determined { Determined newest_first }
    {
        let room = Room::new(heap, capacity)?;
        Ok(NewestFirstLine { room })
    }
}

impl WaitingLine for NewestFirstLine {
    ghost discipline = { newest_first };

    ghost state = { λ l. row_of l };

    fn capacity(&self) -> usize {
        self.room.capacity
    }

    fn add(&mut self, waiting: Entry) -> Result<(), Full> {
        self.room.add(waiting)
    }

    fn take(&mut self) -> Option<Entry> {
        self.room.entries.pop()
    }

    fn least(&self) -> Option<u64> {
        least_floor(&self.room.entries)
    }
}

/// The least floor of some entries; none where there are none.
fn least_floor(entries: &[Entry]) -> Option<u64>
    ensures none { IsNone result ↔ (entries.now ≡ []) }
    ensures reached { IfSome result (λ n. Any (λ e. e.floor ≡ n) entries.now) }
    ensures least { IfSome result (λ n. All (λ e. n ≤ e.floor) entries.now) }
{
    entries.iter().map(|entry| entry.floor).min()
}
