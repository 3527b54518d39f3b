// Filling a list and reading from it.
ghost use Rattle.std.specs.Prelude.{◌≡◌, [], map, vec_len, vec_capacity};
ghost use Rattle.model.specs.Places.{AtPlace};
ghost use Rattle.jobs.specs.Lists.{Added};
ghost use Rattle.records.specs.Bytes.{record_of};

use crate::joblist::JobList;
use model::place::at_place;
use model::refusal::Refusal;
use records::job::Job;
use records::record::encode;
use std::alloc::Global;

/// The most jobs that a list holds.
pub const MOST_JOBS: usize = 128;

impl<J: Job> JobList<J> {
    /// A list without jobs.
    pub fn new(heap: Global) -> JobList<J>
        ensures { result.jobs.items ≡ [] }
    {
        let jobs = Vec::new(heap);
        JobList { jobs }
    }

    /// How many jobs there are.
    pub fn count(&self) -> usize
        ensures { result ≡ vec_len self.now.jobs }
    {
        self.jobs.len()
    }

    /// The jobs in order of their numbers.
    pub fn as_slice(&self) -> &[J]
        ensures { result.now ≡ self.now.jobs.items }
    {
        self.jobs.as_slice()
    }

    /// Adds the job of a record's four fields at the end.
    pub fn add(&mut self, fields: &[u32; 4]) -> Result<(), Refusal>
        ensures { Added J.spans J.Job.row (vec_capacity self.old.jobs) self.old.jobs.items self.new.jobs.items fields.now result }
    {
        let count = self.jobs.len();
        if count == MOST_JOBS {
            return Err(Refusal::JobCount);
        }
        let job = J::from_fields(fields, count + 1)?;
        self.jobs.push(job)?;
        Ok(())
    }

    /// The job with a number from 1; none where there is no such job.
    pub fn job(&self, number: usize) -> Option<J>
        ensures { AtPlace self.now.jobs.items number result }
    {
        at_place(&self.jobs, number)
    }

    /// The record of the job with a number from 1; none where there is no such job.
    pub fn record(&self, number: usize) -> Option<[u8; 16]>
        ensures { AtPlace (map (λ j. record_of (J.Job.row j)) self.now.jobs.items) number result }
    {
        let job = self.job(number)?;
        Some(encode(&job.fields()))
    }
}
