//! What a run of code stands on.

use flat_code::Graph;
use sdg_base::{Name, Val};
use std::alloc::Global;

/// The graph, how deep calls may be in each other, the name of the field whose state is there, the key
/// that the item carries, and what the parts of a visit brought.
#[derive(Clone, Copy)]
pub struct Engine<'g> {
    pub alloc: Global,
    pub graph: &'g Graph,
    pub depth: u32,
    pub field: &'g Option<Name>,
    pub key: Option<i64>,
    pub gathered: &'g [Val],
}
