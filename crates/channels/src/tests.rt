use super::*;
use sdg_base::{Item, Outcome, Port};
use std::test::*;

fn done(call: u32) -> Item {
    Item::Done {
        call,
        outcome: Outcome::Limit,
    }
}

/// The call of an item that ends one.
fn call_in(item: Option<&Item>) -> Option<u32> {
    match item {
        Some(Item::Done { call, .. }) => Some(*call),
        _ => None,
    }
}

#[test]
fn an_outbox_keeps_the_last_items(rt: HostRuntime) -> Result<(), Fail> {
    let mut outboxes = Outboxes::new(rt.alloc());
    let slot = Port::Slot { field: 0, slot: 1 };
    for call in 1..=5 {
        assert!(rt; outboxes.last(slot) < 5);
        let seq = outboxes.send(rt.alloc(), slot, done(10 * call))?;
        assert_eq!(rt; seq, u64::from(call));
    }
    assert_eq!(rt; outboxes.last(Port::Sink), 0);
    assert_eq!(rt; outboxes.send(rt.alloc(), Port::Sink, done(7))?, 1);
    outboxes.trim(slot, 2);
    outboxes.trim(slot, 1);
    for (seq, call) in [
        (0, None),
        (1, None),
        (2, None),
        (3, Some(30)),
        (5, Some(50)),
        (6, None),
    ] {
        assert_eq!(rt; call_in(outboxes.peek(slot, seq)), call, "number {seq}");
    }
    assert_eq!(rt; call_in(outboxes.peek(Port::Sink, 1)), Some(7));
    assert_eq!(rt; call_in(outboxes.peek(Port::Join, 1)), None);
    outboxes.trim(slot, 9);
    assert_eq!(rt; call_in(outboxes.peek(slot, 5)), None);
    assert_eq!(rt; outboxes.last(slot), 5);
    assert_eq!(rt; outboxes.last(Port::Join), 0);
    Ok(())
}

#[test]
fn marks_rise_by_one(rt: HostRuntime) -> Result<(), Fail> {
    let mut marks = Marks::new(rt.alloc());
    let one = Port::Slot { field: 0, slot: 1 };
    let two = Port::Slot { field: 1, slot: 0 };
    assert_eq!(rt; marks.accept(one, 1), Accept::Next);
    marks.raise(one)?;
    marks.raise(two)?;
    marks.raise(one)?;
    assert_eq!(rt; marks.get(one), 2);
    assert_eq!(rt; marks.get(two), 1);
    assert_eq!(rt; marks.get(Port::Front), 0);
    assert_eq!(rt; marks.accept(one, 2), Accept::Repeat);
    assert_eq!(rt; marks.accept(one, 3), Accept::Next);
    assert_eq!(rt; marks.accept(one, 4), Accept::Gap);
    assert_eq!(rt; marks.accept(two, u64::MAX), Accept::Gap);
    Ok(())
}
