// The four fields of a record and their limits.
ghost use Rattle.std.specs.Prelude.{◌<◌, ◌≤◌, ◌↔◌, IsTrue};
ghost use Rattle.records.specs.Fields.{FieldRefusal, CheckedFields};

use model::refusal::Refusal;

/// The least and the greatest number that a field may hold.
#[derive(Clone, Copy)]
pub struct Span {
    pub least: u32,
    pub most: u32,
}

impl Span {
    /// Whether a field lies within the span.
    fn holds(&self, field: u32) -> bool
        ensures { IsTrue result ↔ ((self.now.least ≤ field) × (field ≤ self.now.most)) }
    {
        (self.least..=self.most).contains(&field)
    }
}

/// A time, which may be 0.
pub const TIME: Span = Span {
    least: 0,
    most: 1_000_000,
};

/// A work, which takes a minute at least.
pub const WORK: Span = Span {
    least: 1,
    most: 1_000_000,
};

/// Nothing but 0.
pub const ZERO: Span = Span { least: 0, most: 0 };

/// The refusal for the field at an index from 0: the fourth has a refusal of its own.
fn field_refusal(job: usize, index: usize) -> Refusal
    requires { index < 4 }
    ensures { FieldRefusal job index result }
{
    if index == 3 {
        Refusal::FourthField { job }
    } else {
        Refusal::FieldLimits {
            job,
            field: index + 1,
        }
    }
}

// Four fields and spans, by the format; the job's number comes beside them, since only a fault tells it.

/// Passes fields that lie within their spans, and names the first that does not, from left to right.
pub fn check_fields(fields: &[u32; 4], spans: &[Span; 4], job: usize) -> Result<(), Refusal>
    ensures { CheckedFields spans.now job fields.now result }
{
    let broken = fields
        .iter()
        .zip(spans)
        .position(|(field, span)| !span.holds(*field));
    match broken {
        Some(index) => Err(field_refusal(job, index)),
        None => Ok(()),
    }
}
