use super::*;
use std::test::*;

#[test]
fn keys_have_their_slots(rt: HostRuntime) {
    // A Java 17 virtual machine gave these, by Long.remainderUnsigned, among 1, 2, 3, 7 and 64 slots.
    for (key, slots) in [
        (0, [0, 0, 0, 0, 0]),
        (1, [0, 1, 0, 4, 39]),
        (-1, [0, 0, 0, 3, 24]),
        (2, [0, 1, 0, 1, 15]),
        (7, [0, 0, 2, 6, 20]),
        (42, [0, 1, 1, 5, 61]),
        (1000, [0, 0, 2, 2, 2]),
        (i64::MAX, [0, 0, 2, 0, 56]),
        (i64::MIN, [0, 0, 2, 4, 32]),
        (-123_456_789, [0, 0, 1, 2, 16]),
    ] {
        let found = [
            slot_of(key, 1),
            slot_of(key, 2),
            slot_of(key, 3),
            slot_of(key, 7),
            slot_of(key, 64),
        ];
        assert!(rt; found == slots, "key {key}");
    }
}

#[test]
fn nothing_said_is_one_of_each(rt: HostRuntime) {
    let schedule = Schedule::by_default(rt.alloc());
    assert_eq!(rt;
        schedule.header,
        Header {
            nodes: 1,
            slots: 1,
            stores: 1,
            width: 1,
        }
    );
    assert_eq!(rt; schedule.events.len(), 0);
}
