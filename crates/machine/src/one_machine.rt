// One machine and the jobs that it runs.
ghost use Rattle.std.specs.Prelude.{◌≡◌};
ghost use Rattle.machine.specs.Rows.{rows_of};
ghost use Rattle.machine.specs.Schedule.{Scheduled};

use crate::schedule::{Schedule, run};
use jobs::joblist::JobList;
use model::order::check_order;
use model::refusal::Refusal;
use records::machine_job::MachineJob;
use std::alloc::Global;

/// One machine with its jobs. The list moves in, and no call adds a job to it.
// Its field and no model, which would be that list again.
#[derive(Drop)]
pub struct OneMachine {
    list: JobList<MachineJob>,
}

impl OneMachine {
    /// The machine that runs the listed jobs.
    pub fn new(list: JobList<MachineJob>) -> OneMachine
        ensures { result.list ≡ list }
    {
        OneMachine { list }
    }

    /// The schedule of an order of the jobs.
    pub fn schedule(&self, heap: Global, order: &[usize]) -> Result<Schedule, Refusal>
        ensures { Scheduled (rows_of self.now.list.jobs.items) order.now result }
    {
        check_order(order, self.list.count())?;
        let schedule = run(heap, &self.list, order)?;
        Ok(schedule)
    }
}
