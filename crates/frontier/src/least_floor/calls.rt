// The calls of the least-floor line.
ghost use Rattle.std.specs.Prelude.{◌≡◌, IfOk};
ghost use Rattle.frontier.specs.Bags.{nothing};
ghost use Rattle.frontier.specs.Order.{ByFloor};
ghost use Rattle.frontier.specs.Disciplines.{Determined};
ghost use Rattle.frontier.specs.Named.{least_first};
ghost use Rattle.frontier.specs.Holding.{held_by};

use crate::entry::Entry;
use crate::least_floor::LeastFloorLine;
use crate::line::WaitingLine;
use crate::room::Room;
use heap::{Full, Heap};
use std::alloc::{AllocError, Global};

impl LeastFloorLine {
    /// An empty line with memory for `capacity` entries.
    #[tactic(auto, using(crate::proofs::Leading::least_determined))]
    pub fn new(heap: Global, capacity: usize) -> Result<LeastFloorLine, AllocError>
        ensures empty { IfOk result (λ l. held_by l ≡ record { capacity = capacity; bag = nothing }) }
        ensures determined { Determined least_first }
        ensures ordered { ByFloor ⟦<Entry as Ord>⟧.cmp }
    {
        let room = Room::new(heap, capacity)?;
        Ok(LeastFloorLine { room })
    }
}

// After the last use of a heap each slice is read once more, by which the check knows what the heap left in it.
impl WaitingLine for LeastFloorLine {
    ghost discipline = { least_first };

    ghost state = { λ l. held_by l };

    fn capacity(&self) -> usize {
        self.room.capacity
    }

    fn add(&mut self, waiting: Entry) -> Result<(), Full> {
        let waited = self.room.entries.len();
        self.room.add(waiting)?;
        let slots = self.room.entries.as_mut_slice();
        let added = Heap::over(slots, waited).push(waiting);
        prove!(slots.len() == waited + 1);
        added
    }

    fn take(&mut self) -> Option<Entry> {
        let slots = self.room.entries.as_mut_slice();
        let len = slots.len();
        let first = Heap::over(slots, len).pop();
        prove!(slots.len() == len);
        self.room.entries.pop();
        first
    }

    fn least(&self) -> Option<u64> {
        heap::front(&self.room.entries, self.room.entries.len()).map(|first| first.floor)
    }
}
