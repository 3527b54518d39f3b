// What a kind of job is: a type whose values are lawful records.
ghost use Rattle.std.specs.Prelude.{◌≡◌, ℕ, List};
ghost use Rattle.records.specs.declared.field.Span.{Span};
ghost use Rattle.records.specs.Fields.{Four, Lawful, Taken};

use model::refusal::Refusal;

/// A kind of job: its values are made from the four fields of a record, and give them back.
// The two kinds stay two structs, each with the names of its own fields, which one generic struct would give up for indices.
// A body shared by both would need a public maker that asks for lawful fields, and no public call asks for anything.
pub trait Job: Copy {
    // the limits of the four fields, apart from `row`: why a file is refused has limits and no job
    ghost spans: { List Span };

    // the four fields of a job
    ghost row: { Self → List ℕ };

    // no `TryFrom`: a fault is told under the number that the job would get, which comes beside the fields for that alone
    /// The job with these fields, or their first fault under the number that the job would get.
    fn from_fields(fields: &[u32; 4], job: usize) -> Result<Self, Refusal>
        ensures { Taken spans row job fields.now result };

    // no `From`: the row of numbers is a type of the language, and files are written for any kind of job
    /// The four fields of the job's record.
    fn fields(&self) -> [u32; 4]
        ensures { result ≡ row self.now };

    // they are four numbers of 32 bits
    ghost shaped: { (j : Self) → Four (row j) };

    // a job's fields are lawful
    ghost lawful: { (j : Self) → Lawful spans (row j) };

    // jobs with the same fields are the same
    ghost same: { (i j : Self) → row i ≡ row j → i ≡ j };
}
