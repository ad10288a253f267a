ghost use Rattle.std.specs.Prelude.{◌^◌, ◌<◌, length};

use placement::{Event, Header, Schedule};
use run_text::{TextError, read_schedule};
use sdg_base::{Name, Port};
use sqlite_items::Items;
use std::alloc::{AllocError, Global};
use std::test::*;

/// The schedule of a text under the fields `t` and `next`.
fn read(alloc: Global, text: &[u8]) -> Result<Schedule, TextError>
    requires { length text.now < 2 ^ 32 }
{
    let fields: [Name; 2] = [
        Items::from_slice(alloc, b"t")?,
        Items::from_slice(alloc, b"next")?,
    ];
    read_schedule(alloc, &fields, text)
}

#[test]
fn schedules_are_those_of_the_words(rt: HostRuntime) -> Result<(), Fail> {
    let alloc = rt.alloc();
    let text =
        b"sdg nodes 4 slots 1 stores 3 width 2\ntake in caller 0\ntake t/0 in 63\nsink next/0\ntake join t/0 5";
    let schedule = read(alloc, text)?;
    assert_eq!(rt;
        schedule.header,
        Header {
            nodes: 4,
            slots: 1,
            stores: 3,
            width: 2
        }
    );
    let t = Port::Slot { field: 0, slot: 0 };
    let next = Port::Slot { field: 1, slot: 0 };
    let events = [
        Event::Take {
            to: Port::Front,
            from: Port::Caller,
            pick: 0,
        },
        Event::Take {
            to: t,
            from: Port::Front,
            pick: 63,
        },
        Event::Sink { from: next },
        Event::Take {
            to: Port::Join,
            from: t,
            pick: 5,
        },
    ];
    assert_eq!(rt; schedule.events.as_slice(), events.as_slice());
    let none = read(alloc, b"# no line\n")?;
    assert_eq!(rt;
        none.header,
        Header {
            nodes: 1,
            slots: 1,
            stores: 1,
            width: 1
        }
    );
    assert!(rt; none.events.is_empty());
    Ok(())
}

#[test]
fn the_first_field_of_a_name_counts(rt: HostRuntime) -> Result<(), Fail> {
    let alloc = rt.alloc();
    let fields: [Name; 4] = [
        Items::from_slice(alloc, b"b")?,
        Items::from_slice(alloc, b"a")?,
        Items::from_slice(alloc, b"a")?,
        Items::from_slice(alloc, b"a/0")?,
    ];
    let text = b"sdg nodes 1 slots 1 stores 1 width 1\nsink a/0\nsink a/0/0";
    let schedule = read_schedule(alloc, &fields, text)?;
    let events = [
        Event::Sink {
            from: Port::Slot { field: 1, slot: 0 },
        },
        Event::Sink {
            from: Port::Slot { field: 3, slot: 0 },
        },
    ];
    assert_eq!(rt; schedule.events.as_slice(), events.as_slice());
    Ok(())
}
