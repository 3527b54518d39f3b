// What a waiting line means.
ghost use Rattle.std.specs.Prelude.{◌≡◌, ◌≤◌};
ghost use Rattle.frontier.specs.Bags.{Least};
ghost use Rattle.frontier.specs.Disciplines.{Discipline, Added, Taken};

use crate::entry::Entry;
use heap::Full;

/// A bag of entries and a fixed capacity. Which entry is taken, the line's discipline says.
pub trait WaitingLine {
    /// The states of the line, the bag and the capacity of each, and what an addition and a taking do.
    ghost discipline: { Discipline };

    ghost state: { Self → discipline.State };

    /// How many entries may wait at once.
    fn capacity(&self) -> usize
        ensures value { result ≡ discipline.capacity (state self.now) }
        ensures within { (discipline.bag (state self.now)).size ≤ result };

    /// Adds an entry, unless the line holds its capacity.
    fn add(&mut self, waiting: Entry) -> Result<(), Full>
        ensures { Added discipline (state self.old) waiting result (state self.new) };

    /// Takes one entry away; none where the line is empty.
    fn take(&mut self) -> Option<Entry>
        ensures { Taken discipline (state self.old) result (state self.new) };

    /// The least floor that waits; none where the line is empty.
    fn least(&self) -> Option<u64>
        ensures { Least (discipline.bag (state self.now)) result };
}
