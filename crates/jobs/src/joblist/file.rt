// Reading a file in the place of a list, and writing a list as a file.
ghost use Rattle.std.specs.Prelude.{◌≡◌, map, length, IfOk, vec_len};
ghost use Rattle.jobs.specs.Files.{JobsRead, Read, OneRefusal, ReadsBack, file_of};

use crate::joblist::JobList;
use crate::joblist::calls::MOST_JOBS;
use model::refusal::Refusal;
use records::job::Job;
use records::record::{decode, encode};
use std::alloc::{AllocError, Global};

/// The jobs of records, or the first fault of the first faulty record.
fn read_jobs<J: Job>(heap: Global, records: &[[u8; 16]]) -> Result<Vec<J>, Refusal>
    ensures answer { JobsRead J.spans J.Job.row records.now result }
    ensures long { IfOk result (λ js. vec_len js ≡ length records.now) }
{
    let mut jobs = Vec::new(heap);
    for (index, bytes) in records.iter().enumerate() {
        let job = J::from_fields(&decode(bytes), index + 1)?;
        jobs.push(job)?;
    }
    Ok(jobs)
}

impl<J: Job> JobList<J> {
    /// Reads a file in the place of this list; a file that is refused leaves the list as it was.
    pub fn read(&mut self, heap: Global, bytes: &[u8]) -> Result<(), Refusal>
        ensures answer { Read J.spans J.Job.row self.old.jobs.items self.new.jobs.items bytes.now result }
        ensures only { OneRefusal J.spans bytes.now result }
    {
        let (records, rest) = bytes.as_chunks::<16>();
        if records.is_empty() || !rest.is_empty() {
            return Err(Refusal::NotRecords);
        }
        if records.len() > MOST_JOBS {
            return Err(Refusal::JobCount);
        }
        self.jobs = read_jobs(heap, records)?;
        Ok(())
    }

    /// The file of this list: its records one after the other. Only want of memory keeps it back.
    pub fn write(&self, heap: Global) -> Result<Vec<u8>, AllocError>
        ensures answer { IfOk result (λ b. b.items ≡ file_of (map J.Job.row self.now.jobs.items)) }
        ensures read_back { IfOk result (λ b. ReadsBack J.spans J.Job.row self.now.jobs.items b.items) }
    {
        let mut bytes = Vec::new(heap);
        for job in self.jobs.iter() {
            bytes.extend_from_slice(&encode(&job.fields()))?;
        }
        Ok(bytes)
    }
}
