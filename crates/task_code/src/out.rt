//! What an item gives.

use sdg_base::{Item, Port};

/// What an item gives at a port: an item for the cell at a port; one for each instance of a field, of
/// which there are so many; a part of a visit, which is for the join; the result of a call, which is
/// for the sink; or nothing until more parts come.
#[derive(Drop)]
pub enum Out {
    Send(Port, Item),
    Broadcast(u16, u8, Item),
    Part(Item),
    Result(Item),
    Wait,
}
