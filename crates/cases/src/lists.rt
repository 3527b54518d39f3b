// Job records and lists at and past their limits.
use jobs::joblist::JobList;
use model::refusal::Refusal;
use records::flow_job::FlowJob;
use records::job::Job;
use records::machine_job::MachineJob;
use records::record::encode;
use std::alloc::{AllocError, Global};
use std::test::Fail;

const LAWFUL: [u32; 4] = [0, 1, 0, 0];

/// A file of records with these fields.
fn file(heap: Global, rows: &[[u32; 4]]) -> Result<Vec<u8>, AllocError> {
    let mut bytes = Vec::new(heap);
    for row in rows {
        bytes.extend_from_slice(&encode(row))?;
    }
    Ok(bytes)
}

/// What reading a file of these rows answers.
fn answer<J: Job>(heap: Global, rows: &[[u32; 4]]) -> Result<usize, Refusal> {
    let bytes = file(heap, rows)?;
    let mut list: JobList<J> = JobList::new(heap);
    list.read(heap, &bytes)?;
    Ok(list.count())
}

#[test]
fn machine_fields_at_their_limits(rt: HostRuntime) {
    let heap = rt.alloc();
    let lawful = [[0, 1, 0, 0], [1_000_000, 1_000_000, 1_000_000, 0]];
    assert_eq!(rt; answer::<MachineJob>(heap, &lawful), Ok(2));
    let faults = [
        (
            [1_000_001, 1, 0, 0],
            Refusal::FieldLimits { job: 2, field: 1 },
        ),
        ([0, 0, 0, 0], Refusal::FieldLimits { job: 2, field: 2 }),
        (
            [0, 1_000_001, 0, 0],
            Refusal::FieldLimits { job: 2, field: 2 },
        ),
        (
            [0, 1, 1_000_001, 0],
            Refusal::FieldLimits { job: 2, field: 3 },
        ),
        ([0, 1, 0, 1], Refusal::FourthField { job: 2 }),
        (
            [0, 0, 1_000_001, 1],
            Refusal::FieldLimits { job: 2, field: 2 },
        ),
        (
            [4_294_967_295, 0, 0, 1],
            Refusal::FieldLimits { job: 2, field: 1 },
        ),
    ];
    for (row, refusal) in faults {
        assert_eq!(rt; answer::<MachineJob>(heap, &[LAWFUL, row]), Err(refusal));
    }
}

#[test]
fn flow_fields_at_their_limits(rt: HostRuntime) {
    let heap = rt.alloc();
    let lawful = [[1, 1, 1, 0], [1_000_000, 1_000_000, 1_000_000, 0]];
    assert_eq!(rt; answer::<FlowJob>(heap, &lawful), Ok(2));
    let faults = [
        ([0, 1, 1, 0], Refusal::FieldLimits { job: 1, field: 1 }),
        ([1, 0, 1, 0], Refusal::FieldLimits { job: 1, field: 2 }),
        ([1, 1, 0, 0], Refusal::FieldLimits { job: 1, field: 3 }),
        (
            [1, 1, 1_000_001, 1],
            Refusal::FieldLimits { job: 1, field: 3 },
        ),
        ([1, 1, 1, 1], Refusal::FourthField { job: 1 }),
    ];
    for (row, refusal) in faults {
        assert_eq!(rt; answer::<FlowJob>(heap, &[row, [0, 0, 0, 0]]), Err(refusal));
    }
}

#[test]
fn records_go_before_fields(rt: HostRuntime) {
    let rows = [[0, 1, 0, 7], [0, 0, 0, 0]];
    assert_eq!(rt;
        answer::<MachineJob>(rt.alloc(), &rows),
        Err(Refusal::FourthField { job: 1 })
    );
}

#[test]
fn file_lengths(rt: HostRuntime) -> Result<(), Fail> {
    let heap = rt.alloc();
    let bytes = file(heap, &[LAWFUL, LAWFUL])?;
    assert!(rt; bytes.len() == 32);
    let mut list: JobList<MachineJob> = JobList::new(heap);
    assert_eq!(rt; list.read(heap, &bytes[0..0]), Err(Refusal::NotRecords));
    assert_eq!(rt; list.read(heap, &bytes[0..15]), Err(Refusal::NotRecords));
    assert_eq!(rt; list.read(heap, &bytes[0..17]), Err(Refusal::NotRecords));
    assert_eq!(rt; list.count(), 0);
    assert_eq!(rt; list.read(heap, &bytes[0..16]), Ok(()));
    assert_eq!(rt; list.count(), 1);
    Ok(())
}

#[test]
fn a_list_holds_128(rt: HostRuntime) {
    let heap = rt.alloc();
    assert_eq!(rt; answer::<MachineJob>(heap, &[LAWFUL; 128]), Ok(128));
    assert_eq!(rt;
        answer::<MachineJob>(heap, &[LAWFUL; 129]),
        Err(Refusal::JobCount)
    );
    let mut list: JobList<MachineJob> = JobList::new(heap);
    assert_eq!(rt;
        list.add(&[0, 0, 0, 0]),
        Err(Refusal::FieldLimits { job: 1, field: 2 })
    );
    for _ in 0..128 {
        assert_eq!(rt; list.add(&LAWFUL), Ok(()));
    }
    assert_eq!(rt; list.add(&[0, 0, 0, 0]), Err(Refusal::JobCount));
    assert_eq!(rt; list.count(), 128);
}

#[test]
fn a_refusal_leaves_the_list(rt: HostRuntime) -> Result<(), Fail> {
    let heap = rt.alloc();
    let row = [10, 5, 7, 0];
    let mut list: JobList<MachineJob> = JobList::new(heap);
    list.add(&row)?;
    let bytes = file(heap, &[LAWFUL, LAWFUL, [0, 0, 0, 0]])?;
    assert_eq!(rt;
        list.read(heap, &bytes),
        Err(Refusal::FieldLimits { job: 3, field: 2 })
    );
    assert_eq!(rt; list.record(1), Some(encode(&row)));
    assert_eq!(rt; list.record(0), None);
    assert_eq!(rt; list.record(2), None);
    Ok(())
}

#[test]
fn what_is_read_is_written(rt: HostRuntime) -> Result<(), Fail> {
    let heap = rt.alloc();
    let bytes = file(heap, &[[10, 5, 7, 0], [258, 65_536, 999_999, 0]])?;
    let mut list: JobList<MachineJob> = JobList::new(heap);
    list.read(heap, &bytes)?;
    assert_eq!(rt; list.write(heap)?.as_slice(), bytes.as_slice());
    Ok(())
}
