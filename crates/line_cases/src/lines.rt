// The two waiting lines.
use frontier::entry::Entry;
use frontier::least_floor::LeastFloorLine;
use frontier::line::WaitingLine;
use frontier::newest_first::NewestFirstLine;
use frontier::run::{Answer, Call, run_calls};
use heap::Full;
use std::process::Abort;
use std::test::Fail;

const fn add(floor: u64, place: usize) -> Call {
    Call::Add(Entry { floor, place })
}

const fn took(floor: u64, place: usize) -> Answer {
    Answer::OfTake(Some(Entry { floor, place }))
}

const ADDED: Answer = Answer::OfAdd(Ok(()));

const REFUSED: Answer = Answer::OfAdd(Err(Full));

const NONE: Answer = Answer::OfTake(None);

/// Whether a list of calls on a line gives these answers, and leaves this least floor.
fn answers_are<L: WaitingLine>(
    rt: &(impl Abort + AllocGlobal),
    line: &mut L,
    calls: &[Call],
    answers: &[Answer],
    least: Option<u64>,
) -> Result<(), Fail> {
    let given = run_calls(rt.alloc(), line, calls)?;
    assert!(rt; given.as_slice() == answers && line.least() == least);
    Ok(())
}

/// The same of both lines, where they answer alike.
fn both_answer(
    rt: &(impl Abort + AllocGlobal),
    capacity: usize,
    calls: &[Call],
    answers: &[Answer],
    least: Option<u64>,
) -> Result<(), Fail> {
    let mut line = LeastFloorLine::new(rt.alloc(), capacity)?;
    answers_are(rt, &mut line, calls, answers, least)?;
    let mut line = NewestFirstLine::new(rt.alloc(), capacity)?;
    answers_are(rt, &mut line, calls, answers, least)
}

/// A line without room is empty and full at once.
#[test]
fn no_room(rt: HostRuntime) -> Result<(), Fail> {
    let calls = [Call::Take, add(1, 1), Call::Take, add(0, 0)];
    let answers = [NONE, REFUSED, NONE, REFUSED];
    both_answer(&rt, 0, &calls, &answers, None)
}

/// After a refusal and a taking there is room again.
#[test]
fn room_for_one(rt: HostRuntime) -> Result<(), Fail> {
    let calls = [
        add(7, 2),
        add(3, 1),
        Call::Take,
        Call::Take,
        add(3, 1),
        add(3, 1),
    ];
    let answers = [ADDED, REFUSED, took(7, 2), NONE, ADDED, REFUSED];
    both_answer(&rt, 1, &calls, &answers, Some(3))
}

#[test]
fn equal_floors(rt: HostRuntime) -> Result<(), Fail> {
    let calls = [
        add(5, 3),
        add(5, 1),
        add(4, 9),
        add(5, 2),
        add(4, 9),
        add(u64::MAX, 0),
        Call::Take,
        Call::Take,
        Call::Take,
        Call::Take,
        Call::Take,
    ];
    let answers = [
        ADDED,
        ADDED,
        ADDED,
        ADDED,
        ADDED,
        ADDED,
        took(4, 9),
        took(4, 9),
        took(5, 1),
        took(5, 2),
        took(5, 3),
    ];
    let mut line = LeastFloorLine::new(rt.alloc(), 6)?;
    answers_are(&rt, &mut line, &calls, &answers, Some(u64::MAX))
}

/// The same calls on both lines, which take in another order.
#[test]
fn two_orders(rt: HostRuntime) -> Result<(), Fail> {
    let heap = rt.alloc();
    let calls = [
        Call::Take,
        add(5, 1),
        add(8, 2),
        add(6, 3),
        Call::Take,
        add(6, 3),
        Call::Take,
        Call::Take,
    ];
    let least = [
        NONE,
        ADDED,
        ADDED,
        REFUSED,
        took(5, 1),
        ADDED,
        took(6, 3),
        took(8, 2),
    ];
    answers_are(
        &rt,
        &mut LeastFloorLine::new(heap, 2)?,
        &calls,
        &least,
        None,
    )?;
    let newest = [
        NONE,
        ADDED,
        ADDED,
        REFUSED,
        took(8, 2),
        ADDED,
        took(6, 3),
        took(5, 1),
    ];
    answers_are(
        &rt,
        &mut NewestFirstLine::new(heap, 2)?,
        &calls,
        &newest,
        None,
    )
}

/// Fills a line with floors that fall from 4,096 to 1, and adds one more.
fn fill<L: WaitingLine>(rt: &impl Abort, line: &mut L) {
    for place in 0..4096usize {
        assert!(rt;
            line.add(Entry {
                floor: 4096 - place as u64,
                place,
            })
            .is_ok()
        );
    }
    assert!(rt; line.capacity() == 4096 && line.least() == Some(1));
    assert!(rt; line.add(Entry { floor: 0, place: 0 }).is_err());
}

#[test]
fn large_lines(rt: HostRuntime) -> Result<(), Fail> {
    let mut line = LeastFloorLine::new(rt.alloc(), 4096)?;
    fill(&rt, &mut line);
    for floor in 1..4097u64 {
        assert!(rt; line.take().ok_or("too few")?.floor == floor);
    }
    let mut line = NewestFirstLine::new(rt.alloc(), 4096)?;
    fill(&rt, &mut line);
    for place in (0..4096usize).rev() {
        assert!(rt; line.take().ok_or("too few")?.place == place);
    }
    assert!(rt; line.take().is_none());
    Ok(())
}
