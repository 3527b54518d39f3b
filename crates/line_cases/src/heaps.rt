// The heap over lent memory, for numbers and for ready jobs.
use heap::{Heap, front};
use ready::{ReadyJob, start_next};
use std::test::Fail;

#[test]
fn the_least_comes_first(rt: HostRuntime) {
    let mut memory = [0u32; 8];
    let mut heap = Heap::over(&mut memory, 0);
    for x in [5, 1, 4, 1, 3, 9, 2, 6] {
        assert!(rt; heap.push(x).is_ok());
    }
    assert!(rt; heap.push(0).is_err() && heap.len() == 8 && heap.peek() == Some(1));
    for x in [1, 1, 2, 3, 4, 5, 6, 9] {
        assert!(rt; heap.pop() == Some(x));
    }
    assert!(rt; heap.pop().is_none() && heap.len() == 0);
}

#[test]
fn a_heap_takes_up_what_lies_there(rt: HostRuntime) {
    let mut memory = [1u32, 3, 2, 7];
    let mut heap = Heap::over(&mut memory, 3);
    assert!(rt; heap.push(0).is_ok() && heap.pop() == Some(0) && heap.pop() == Some(1));
    assert!(rt; heap.len() == 2);
    assert!(rt; front(&memory, 2) == Some(2) && front(&memory, 0).is_none());
}

#[test]
fn a_length_beyond_the_memory_is_all_of_it(rt: HostRuntime) {
    let mut memory = [4u32, 8];
    let mut heap = Heap::over(&mut memory, 9);
    assert!(rt; heap.len() == 2 && heap.push(1).is_err() && heap.pop() == Some(4));
    assert!(rt; heap.push(1).is_ok() && heap.pop() == Some(1) && heap.pop() == Some(8));
}

#[test]
fn no_memory_is_empty_and_full(rt: HostRuntime) {
    let mut memory = [0u32; 0];
    let mut heap = Heap::over(&mut memory, 1);
    assert!(rt; heap.len() == 0 && heap.peek().is_none());
    assert!(rt; heap.push(1).is_err() && heap.pop().is_none());
}

#[test]
fn the_greatest_tail_starts_first(rt: HostRuntime) -> Result<(), Fail> {
    let mut memory = [ReadyJob { tail: 0, job: 0 }; 4];
    let mut ready = Heap::over(&mut memory, 0);
    for (tail, job) in [(3u64, 7usize), (9, 8), (9, 2), (0, 1)] {
        assert!(rt; ready.push(ReadyJob { tail, job }).is_ok());
    }
    for job in [2usize, 8, 7, 1] {
        assert!(rt; start_next(&mut ready).ok_or("no job")?.job == job);
    }
    assert!(rt; start_next(&mut ready).is_none());
    Ok(())
}
