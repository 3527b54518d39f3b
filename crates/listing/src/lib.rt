#![tactic(auto)]

// From the bytes of a job file to the text of its listing.
ghost use Rattle.std.specs.Prelude.{◌≡◌, ◌≤◌, IfOk, string_bytes};
ghost use Rattle.std.specs.List.{range_with_len};
ghost use Rattle.listing.specs.Listing.{ReadPlan, text_of, ListedAs, OneText};

use jobs::joblist::JobList;
use machine::one_machine::OneMachine;
use machine::schedule::Schedule;
use model::refusal::Refusal;
use records::machine_job::MachineJob;
use std::alloc::{AllocError, Global};

// `..count + 1`: the library has no lemma yet on what an inclusive range yields.

/// The jobs from 1 to `count` in the order of their numbers.
fn numbers(heap: Global, count: usize) -> Result<Vec<usize>, AllocError>
    requires { count ≤ 128 }
    ensures { IfOk result (λ v. v.items ≡ range_with_len 1 count) }
{
    (1..count + 1).collect(heap)
}

/// The schedule of a file's jobs in the order of the file.
pub fn plan(heap: Global, bytes: &[u8]) -> Result<Schedule, Refusal>
    ensures { ReadPlan bytes.now result }
{
    let mut list = JobList::new(heap);
    list.read(heap, bytes)?;
    let order = numbers(heap, list.count())?;
    OneMachine::new(list).schedule(heap, &order)
}

// No `Display` of a schedule: its own text is its slots', and these lines are the program's format.

/// The lines of a schedule, and its worth in a line of its own. Only want of memory keeps it back.
pub fn text(heap: Global, schedule: &Schedule) -> Result<String, AllocError>
    ensures { IfOk result (λ t. string_bytes t ≡ text_of schedule.now) }
{
    let mut text = String::new(heap);
    for slot in schedule.slots() {
        writeln!(text, "{slot}")?;
    }
    let worth = schedule.worth();
    writeln!(text, "best {worth}")?;
    Ok(text)
}

/// The listing of a file: its schedule, or the number under which it is refused. Only want of memory gives no listing.
pub fn listing(heap: Global, bytes: &[u8]) -> Result<String, Refusal>
    ensures answer { ListedAs bytes.now result }
    ensures only { IfOk result (λ t. OneText bytes.now (string_bytes t)) }
{
    // taken apart by hand, since a refusal is a line of text here; want of memory stays a `Refusal`, as `plan` gives it
    match plan(heap, bytes) {
        Ok(schedule) => Ok(text(heap, &schedule)?),
        Err(refusal) => match refusal.number() {
            Some(number) => Ok(format!(in heap; "refused {number}\n")?),
            None => Err(refusal),
        },
    }
}
