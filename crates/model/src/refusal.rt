// Why a call refuses.
ghost use Rattle.std.specs.Prelude.{◌≡◌};
ghost use Rattle.model.specs.Returned.{number_of};
ghost use Rattle.model.specs.declared.refusal.Refusal.TheVariants.{Memory};

use std::alloc::{AllocError, AllocFailed};

/// Why a call refuses. Jobs, fields and places count from 1, node places from 0.
#[derive(Clone, Copy, PartialEq, Eq, Debug)]
pub enum Refusal {
    /// The file is empty, or not whole records.
    NotRecords,
    /// More than 128 jobs, or a search opened with none.
    JobCount,
    /// A field from 1 to 3 is out of its limits.
    FieldLimits { job: usize, field: usize },
    /// The fourth field is not zero.
    FourthField { job: usize },
    /// The table's length is not 1 to 4,096, or not the one at opening.
    TableLength,
    /// The plan or the order has not one entry for each job.
    OrderLength,
    /// The first entry of an order that is 0, too great or repeated.
    OrderEntry { place: usize },
    /// The budget is not 1 to 4,096.
    Budget,
    /// The first broken node.
    BrokenNode { place: usize },
    /// The waiting line is not empty at opening, or holds fewer than the table.
    LineUnfit,
    /// Nothing is taken from a finished search.
    Finished,
    /// Want of memory.
    Memory,
}

impl Refusal {
    // no `From`: not each case has a number
    /// The number under which a refusal is shown; want of memory has none.
    pub fn number(&self) -> Option<u32>
        ensures { result ≡ number_of self.now }
    {
        match self {
            Refusal::NotRecords => Some(1),
            Refusal::JobCount => Some(2),
            Refusal::FieldLimits { .. } => Some(3),
            Refusal::FourthField { .. } => Some(4),
            Refusal::TableLength => Some(5),
            Refusal::OrderLength => Some(6),
            Refusal::OrderEntry { .. } => Some(7),
            Refusal::Budget => Some(8),
            Refusal::BrokenNode { .. } => Some(9),
            Refusal::LineUnfit => Some(10),
            Refusal::Finished => Some(11),
            Refusal::Memory => None,
        }
    }
}

// Two of them, since the library has two errors for want of memory.
impl From<AllocError> for Refusal {
    ghost from_gives = { λ _ r. r ≡ Memory };

    fn from(_e: AllocError) -> Refusal {
        Refusal::Memory
    }
}

impl<T: Drop> From<AllocFailed<T>> for Refusal {
    ghost from_gives = { λ _ r. r ≡ Memory };

    fn from(_e: AllocFailed<T>) -> Refusal {
        Refusal::Memory
    }
}
