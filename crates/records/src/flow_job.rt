// A job of the flow shop.
ghost use Rattle.std.specs.Prelude.{◌≡◌, ℕ, ◌≤◌, List, [], ◌∷◌, slice_index};
ghost use Rattle.records.specs.Kinds.{flow_spans};
ghost use Rattle.std.proofs.Common.{rules};
ghost use Rattle.records.specs.FieldsLemmas.{low_field, high_field};

use crate::field::{Span, WORK, ZERO, check_fields};
use crate::job::Job;
use model::refusal::Refusal;

/// A job of the flow shop, by its work at each of the three stations.
#[derive(Clone, Copy)]
pub struct FlowJob {
    pub first: u32,
    pub second: u32,
    pub third: u32,
    ghost first_least: { 1 ≤ first },
    ghost first_most: { first ≤ 1000000 },
    ghost second_least: { 1 ≤ second },
    ghost second_most: { second ≤ 1000000 },
    ghost third_least: { 1 ≤ third },
    ghost third_most: { third ≤ 1000000 },
}

/// Three works and zero.
const SPANS: [Span; 4] = [WORK, WORK, WORK, ZERO];

impl Job for FlowJob {
    ghost spans = { flow_spans };

    ghost row = { λ j. j.first ∷ j.second ∷ j.third ∷ 0 ∷ [] };

    ghost shaped = { Prim.search rules };

    ghost lawful = { Prim.search rules };

    // the limits are propositions, so jobs with the same numbers are the same
    ghost same = { λ i j e k. record {
      first = slice_index (e k) 0;
      second = slice_index (e k) 1;
      third = slice_index (e k) 2;
      first_least = low_field e 0 i.first_least j.first_least k;
      first_most = high_field e 0 i.first_most j.first_most k;
      second_least = low_field e 1 i.second_least j.second_least k;
      second_most = high_field e 1 i.second_most j.second_most k;
      third_least = low_field e 2 i.third_least j.third_least k;
      third_most = high_field e 2 i.third_most j.third_most k;
    } };

    fn from_fields(fields: &[u32; 4], job: usize) -> Result<FlowJob, Refusal> {
        check_fields(fields, &SPANS, job)?;
        let [first, second, third, _] = *fields;
        Ok(FlowJob {
            first,
            second,
            third,
        })
    }

    fn fields(&self) -> [u32; 4] {
        [self.first, self.second, self.third, 0]
    }
}
