// Schedules and listings.
use jobs::joblist::JobList;
use listing::listing;
use machine::one_machine::OneMachine;
use model::refusal::Refusal;
use records::machine_job::MachineJob;
use std::alloc::Global;
use std::test::Fail;

/// A machine with three jobs.
fn three(heap: Global) -> Result<OneMachine, Refusal> {
    let mut list: JobList<MachineJob> = JobList::new(heap);
    list.add(&[0, 5, 0, 0])?;
    list.add(&[5, 5, 10, 0])?;
    list.add(&[1, 2, 9, 0])?;
    Ok(OneMachine::new(list))
}

#[test]
fn worths_of_three_jobs(rt: HostRuntime) -> Result<(), Fail> {
    let heap = rt.alloc();
    let machine = three(heap)?;
    assert_eq!(rt; machine.schedule(heap, &[1, 2, 3])?.worth(), 21);
    assert_eq!(rt; machine.schedule(heap, &[3, 2, 1])?.worth(), 20);
    assert_eq!(rt; machine.schedule(heap, &[2, 1, 3])?.worth(), 26);
    Ok(())
}

#[test]
fn lines_of_three_jobs(rt: HostRuntime) -> Result<(), Fail> {
    let heap = rt.alloc();
    let schedule = three(heap)?.schedule(heap, &[3, 2, 1])?;
    assert!(rt; schedule.line(heap, 0)?.is_none());
    assert_eq!(rt; schedule.line(heap, 1)?.ok_or("no line")?.as_str(), "3 1 3");
    assert_eq!(rt;
        schedule.line(heap, 3)?.ok_or("no line")?.as_str(),
        "1 10 15"
    );
    assert!(rt; schedule.line(heap, 4)?.is_none());
    Ok(())
}

#[test]
fn orders_are_checked(rt: HostRuntime) -> Result<(), Fail> {
    let heap = rt.alloc();
    let machine = three(heap)?;
    assert_eq!(rt;
        machine.schedule(heap, &[1, 2]).err(),
        Some(Refusal::OrderLength)
    );
    assert_eq!(rt;
        machine.schedule(heap, &[1, 2, 1]).err(),
        Some(Refusal::OrderEntry { place: 3 })
    );
    Ok(())
}

#[test]
fn listings(rt: HostRuntime) -> Result<(), Fail> {
    let heap = rt.alloc();
    let one = [4, 0, 0, 0, 3, 0, 0, 0, 2, 0, 0, 0, 0, 0, 0, 0];
    assert_eq!(rt; listing(heap, &one)?.as_str(), "1 4 7\nbest 9\n");
    assert_eq!(rt; listing(heap, &[])?.as_str(), "refused 1\n");
    assert_eq!(rt; listing(heap, &[0; 16])?.as_str(), "refused 3\n");
    assert_eq!(rt; listing(heap, &[1; 2064])?.as_str(), "refused 2\n");
    Ok(())
}
