// Jobs that are ready to start.

#![tactic(auto)]

ghost use Rattle.std.specs.Prelude.{refl};
ghost use Rattle.std.specs.Cmp.Rules.{comparing};
ghost use Rattle.std.specs.Ordering.{as_partial_cmp};
ghost use Rattle.std.proofs.Common.{rules};
ghost use Rattle.heap.specs.Items.{cells, items, SameMemory};
ghost use Rattle.heap.specs.Calls.{Popped};
ghost use Rattle.ready.specs.Order.{ready_job_cmp, by_tail, Starts};

use heap::Heap;
use std::cmp::Ordering;

/// A job that could start now: its tail and its number.
#[derive(Clone, Copy, PartialEq, Eq, Debug)]
pub struct ReadyJob {
    pub tail: u64,
    pub job: usize,
}

// Written out: derived, a tail that is greatest first would have to be a `Reverse`, for everyone who makes or reads one.
impl PartialOrd for ReadyJob {
    ghost partial_cmp = { as_partial_cmp ready_job_cmp };

    ghost laws = { Prim.search (comparing, rules) };

    fn partial_cmp(&self, other: &ReadyJob) -> Option<Ordering> {
        Some(self.cmp(other))
    }
}

/// The greatest tail first, and among equals the smallest number.
impl Ord for ReadyJob {
    ghost cmp = { ready_job_cmp };

    ghost total = { by_tail };

    ghost matches_partial_cmp = { λ _ _. refl };

    ghost matches_eq = { Prim.search (comparing, rules) };

    fn cmp(&self, other: &ReadyJob) -> Ordering {
        other.tail.cmp(&self.tail).then(self.job.cmp(&other.job))
    }
}

/// Takes the job that starts next away from those that are ready; none where no job is ready.
#[tactic(auto, using(crate::proofs::Leading::starts))]
pub fn start_next(ready: &mut Heap<'_, ReadyJob>) -> Option<ReadyJob>
    ensures lent { SameMemory ready.old ready.new }
    ensures popped { Popped ready_job_cmp (cells ready.old) (items ready.old) result (cells ready.new) (items ready.new) }
    ensures starts { Starts (items ready.old) result }
{
    ready.pop()
}
