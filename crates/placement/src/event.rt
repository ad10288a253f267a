//! The events of a schedule, and what they answered.

ghost use Rattle.std.specs.Prelude.{◌≡◌};
ghost use Rattle.placement.specs.Defaults.{default_schedule};

use sdg_base::Port;
use sqlite_items::Items;
use std::alloc::Global;

/// How many nodes, slots of each partitioned field, stores, and instances of each partial field at
/// the start a run has: 1 to 32, 1 to 64, 1 to 8 and 1 to 64.
#[derive(Clone, Copy, Debug, PartialEq, Eq)]
pub struct Header {
    pub nodes: u8,
    pub slots: u8,
    pub stores: u8,
    pub width: u8,
}

/// An event of a schedule: a cell takes the next item from a port, with a pick of an instance from 0
/// to 63, or the next result of a cell is committed.
#[derive(Clone, Copy, Debug, PartialEq, Eq)]
pub enum Event {
    Take { to: Port, from: Port, pick: u8 },
    Sink { from: Port },
}

/// Events in their order.
pub type Events = Items<Event>;

/// What a run stands on, and its events.
#[derive(Debug, Drop)]
pub struct Schedule {
    pub header: Header,
    pub events: Events,
}

impl Schedule {
    /// What a run without a schedule stands on: one node, slot, store and instance, and no events. It
    /// takes no memory.
    pub fn by_default(alloc: Global) -> Schedule
        ensures { result ≡ default_schedule }
    {
        Schedule {
            header: Header {
                nodes: 1,
                slots: 1,
                stores: 1,
                width: 1,
            },
            events: Items::new(alloc),
        }
    }
}

/// What an event answered. A damaged image has the digest that was stated and the one that was found.
#[derive(Clone, Copy, Debug, PartialEq, Eq)]
pub enum Word {
    Done,
    Replayed,
    Absent,
    Down,
    Held,
    Empty,
    Fault,
    Repeat,
    Open,
    Full,
    Closed,
    Up,
    Damaged { stated: [u8; 32], found: [u8; 32] },
    Malformed,
}
