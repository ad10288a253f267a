//! The ports between which items travel.

ghost use Rattle.std.specs.Prelude.{◌≡◌};
ghost use Rattle.sdg_base.specs.Ports.{same_port};

use sqlite_items::Items;

/// The caller, the sink, or a cell: the one that begins calls, the one that joins parts, a slot of a
/// partitioned field, or an instance of a partial one. Fields, slots and instances count from 0.
#[derive(Clone, Copy, Debug, PartialEq, Eq)]
pub enum Port {
    Caller,
    Sink,
    Front,
    Join,
    Slot { field: u16, slot: u8 },
    Inst { field: u16, number: u8 },
}

/// Ports in their order.
pub type Ports = Items<Port>;

/// Whether two ports are one.
#[tactic(auto, unfolding(crate::specs::Ports::same_port))]
pub fn same_port(left: Port, right: Port) -> bool
    ensures { result ≡ same_port left right }
{
    left == right
}
