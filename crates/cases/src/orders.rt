// The check of an order.
use model::order::check_order;
use model::refusal::Refusal;

#[test]
fn orders_pass(rt: HostRuntime) {
    assert_eq!(rt; check_order(&[], 0), Ok(()));
    assert_eq!(rt; check_order(&[1], 1), Ok(()));
    assert_eq!(rt; check_order(&[3, 1, 4, 2], 4), Ok(()));
}

#[test]
fn lengths_come_first(rt: HostRuntime) {
    assert_eq!(rt; check_order(&[], 1), Err(Refusal::OrderLength));
    assert_eq!(rt; check_order(&[1], 0), Err(Refusal::OrderLength));
    assert_eq!(rt; check_order(&[0, 0, 9], 4), Err(Refusal::OrderLength));
}

#[test]
fn the_first_bad_entry_is_named(rt: HostRuntime) {
    assert_eq!(rt; check_order(&[0], 1), Err(Refusal::OrderEntry { place: 1 }));
    assert_eq!(rt; check_order(&[2], 1), Err(Refusal::OrderEntry { place: 1 }));
    assert_eq!(rt;
        check_order(&[1, 2, 2, 0], 4),
        Err(Refusal::OrderEntry { place: 3 })
    );
    assert_eq!(rt;
        check_order(&[4, 3, 2, 4], 4),
        Err(Refusal::OrderEntry { place: 4 })
    );
    assert_eq!(rt;
        check_order(&[1, 5, 5, 1], 4),
        Err(Refusal::OrderEntry { place: 2 })
    );
}

#[test]
fn refusals_have_numbers(rt: HostRuntime) {
    assert_eq!(rt; Refusal::NotRecords.number(), Some(1));
    assert_eq!(rt; Refusal::FieldLimits { job: 9, field: 2 }.number(), Some(3));
    assert_eq!(rt; Refusal::Finished.number(), Some(11));
    assert_eq!(rt; Refusal::Memory.number(), None);
}
