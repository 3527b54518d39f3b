// The schedule of an order: starts, ends and worth.
ghost use Rattle.std.specs.Prelude.{◌≡◌, length, IfOk};
ghost use Rattle.model.specs.Places.{AtPlace};
ghost use Rattle.model.specs.Orders.{Order};
ghost use Rattle.machine.specs.Rows.{rows_of};
ghost use Rattle.machine.specs.Schedule.{Schedules};

use crate::row::row_at;
use jobs::joblist::JobList;
use model::place::at_place;
use records::machine_job::MachineJob;
use std::alloc::{AllocError, Global};

/// When a job starts and ends on the machine.
#[derive(Clone, Copy)]
pub struct Slot {
    pub job: usize,
    pub start: u64,
    pub end: u64,
}

/// The slots of an order's jobs, in the order of work, and its worth.
// Its fields and no model, which would be a record of the same two.
#[derive(Drop)]
pub struct Schedule {
    slots: Vec<Slot>,
    worth: u64,
}

/// Runs the jobs in order, each as soon as it may start and the machine is free.
pub(crate) fn run(
    heap: Global,
    list: &JobList<MachineJob>,
    order: &[usize],
) -> Result<Schedule, AllocError>
    requires { Order (length list.now.jobs.items) order.now }
    ensures { IfOk result (λ s. Schedules (rows_of list.now.jobs.items) order.now s) }
{
    let jobs = list.as_slice();
    let mut slots = Vec::new(heap);
    let mut free = 0u64;
    let mut worth = 0u64;
    for &job in order {
        let row = row_at(jobs, job);
        let start = free.max(row.head);
        free = start + row.work;
        worth = worth.max(free + row.tail);
        slots.push(Slot {
            job,
            start,
            end: free,
        })?;
    }
    Ok(Schedule { slots, worth })
}

impl Schedule {
    /// The greatest end plus tail.
    pub fn worth(&self) -> u64
        ensures { result ≡ self.now.worth }
    {
        self.worth
    }

    /// The slots in the order of work.
    pub fn slots(&self) -> &[Slot]
        ensures { result.now ≡ self.now.slots.items }
    {
        self.slots.as_slice()
    }

    /// The slot at a place from 1; none where there is no such place.
    pub fn slot(&self, place: usize) -> Option<Slot>
        ensures { AtPlace self.now.slots.items place result }
    {
        at_place(&self.slots, place)
    }
}
