// A list of calls on any waiting line.
ghost use Rattle.std.specs.Prelude.{◌≡◌, IfOk, MatchResult};
ghost use Rattle.frontier.specs.Runs.{Does, Ran, Balanced, OnlyRun};

use crate::entry::Entry;
use crate::line::WaitingLine;
use heap::Full;
use std::alloc::{AllocError, Global};

// Calls and answers as values, which a law over a whole list of them can speak of; named, where an `Option` would not say which call it was.

/// A call that changes a waiting line.
#[derive(Clone, Copy)]
pub enum Call {
    Add(Entry),
    Take,
}

/// What a call answered.
#[derive(Clone, Copy, PartialEq, Eq, Debug)]
pub enum Answer {
    OfAdd(Result<(), Full>),
    OfTake(Option<Entry>),
}

/// Makes one call. A `match`, since the calls are values.
fn make_call<L: WaitingLine>(line: &mut L, call: Call) -> Answer
    ensures { Does L.discipline call result (L.state line.old) (L.state line.new) }
{
    match call {
        Call::Add(waiting) => Answer::OfAdd(line.add(waiting)),
        Call::Take => Answer::OfTake(line.take()),
    }
}

/// Makes the calls one after the other, and answers what each answered. Without memory for the answers, no call is made.
pub fn run_calls<L: WaitingLine>(
    heap: Global,
    line: &mut L,
    calls: &[Call],
) -> Result<Vec<Answer>, AllocError>
    ensures ran { MatchResult result (λ answers. Ran L.discipline calls.now answers.items (L.state line.old) (L.state line.new)) (λ _. L.state line.new ≡ L.state line.old) }
    ensures balanced { IfOk result (λ answers. Balanced (L.discipline.bag (L.state line.old)) calls.now answers.items (L.discipline.bag (L.state line.new))) }
    ensures only { IfOk result (λ answers. OnlyRun L.discipline calls.now answers.items (L.state line.old) (L.state line.new)) }
{
    let mut answers = Vec::with_capacity(heap, calls.len())?;
    for call in calls {
        answers.push_reserved(make_call(line, *call));
    }
    Ok(answers)
}
