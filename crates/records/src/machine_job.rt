// A job of one machine.
ghost use Rattle.std.specs.Prelude.{◌≡◌, ℕ, ◌≤◌, List, [], ◌∷◌, slice_index};
ghost use Rattle.records.specs.Kinds.{machine_spans};
ghost use Rattle.std.proofs.Common.{rules};
ghost use Rattle.records.specs.FieldsLemmas.{low_field, high_field};

use crate::field::{Span, TIME, WORK, ZERO, check_fields};
use crate::job::Job;
use model::refusal::Refusal;

/// A job of one machine: it may start from its head on, holds the machine for its work, and takes its tail after that.
#[derive(Clone, Copy)]
pub struct MachineJob {
    pub head: u32,
    pub work: u32,
    pub tail: u32,
    ghost head_most: { head ≤ 1000000 },
    ghost work_least: { 1 ≤ work },
    ghost work_most: { work ≤ 1000000 },
    ghost tail_most: { tail ≤ 1000000 },
}

/// Head, work, tail and zero.
const SPANS: [Span; 4] = [TIME, WORK, TIME, ZERO];

impl Job for MachineJob {
    ghost spans = { machine_spans };

    ghost row = { λ j. j.head ∷ j.work ∷ j.tail ∷ 0 ∷ [] };

    ghost shaped = { Prim.search rules };

    ghost lawful = { Prim.search rules };

    // the limits are propositions, so jobs with the same numbers are the same
    ghost same = { λ i j e k. record {
      head = slice_index (e k) 0;
      work = slice_index (e k) 1;
      tail = slice_index (e k) 2;
      head_most = high_field e 0 i.head_most j.head_most k;
      work_least = low_field e 1 i.work_least j.work_least k;
      work_most = high_field e 1 i.work_most j.work_most k;
      tail_most = high_field e 2 i.tail_most j.tail_most k;
    } };

    fn from_fields(fields: &[u32; 4], job: usize) -> Result<MachineJob, Refusal> {
        check_fields(fields, &SPANS, job)?;
        let [head, work, tail, _] = *fields;
        Ok(MachineJob { head, work, tail })
    }

    fn fields(&self) -> [u32; 4] {
        [self.head, self.work, self.tail, 0]
    }
}
