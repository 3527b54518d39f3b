// A job as the machine sees it.
ghost use Rattle.std.specs.Prelude.{◌≡◌, length};
ghost use Rattle.model.specs.Orders.{Listed};
ghost use Rattle.machine.specs.Rows.{row_of, rows_of, row, Low};

use records::machine_job::MachineJob;

/// A job's times in minutes: from when on it may start, how long it holds the machine, and how long it still takes after that.
#[derive(Clone, Copy)]
pub struct Row {
    pub head: u64,
    pub work: u64,
    pub tail: u64,
}

/// The row of a listed job.
impl From<MachineJob> for Row {
    ghost from_gives = { λ j r. r ≡ row_of j };

    fn from(job: MachineJob) -> Row {
        Row {
            head: u64::from(job.head),
            work: u64::from(job.work),
            tail: u64::from(job.tail),
        }
    }
}

/// The row of the job with a number from 1.
pub(crate) fn row_at(jobs: &[MachineJob], job: usize) -> Row
    requires { Listed (length jobs.now) job }
    ensures value { result ≡ row (rows_of jobs.now) job }
    ensures low { Low result }
{
    Row::from(jobs[job - 1])
}
