//! What the run of an item stands on.

ghost use Rattle.std.specs.Prelude.{◌≡◌, ◌≤◌};

use crate::graph::Graph;
use std::marker::Model;

/// The graph, the number of slots of each partitioned field, the field of the port that took the item,
/// and the call and the key of the item.
#[derive(Drop)]
pub struct Context<'a> {
    graph: &'a Graph,
    slots: u8,
    field: Option<u16>,
    call: u32,
    key: Option<i64>,
}

impl<'a> Model for Context<'a> {
    ghost use Rattle.std.specs.Prelude.{◌≤◌};
    ghost use Rattle.early_task_code.specs.Machine.{Setting};

    ghost Value = { Setting };

    ghost view = { λ c. record { graph = c.graph.now; slots = c.slots; field = c.field; call = c.call; key = c.key } };

    ghost invariant = { λ c. (1 ≤ c.slots) × (c.slots ≤ 64) };
}

impl<'a> Context<'a> {
    pub fn new(
        graph: &'a Graph,
        slots: u8,
        field: Option<u16>,
        call: u32,
        key: Option<i64>,
    ) -> Context<'a>
        requires some { 1 ≤ slots }
        requires most { slots ≤ 64 }
        ensures { result ≡ record { graph = graph.now; slots = slots; field = field; call = call; key = key } }
    {
        Context {
            graph,
            slots,
            field,
            call,
            key,
        }
    }

    pub fn graph(&self) -> &'a Graph
        ensures { result.now ≡ self.now.graph }
    {
        self.graph
    }

    pub fn slots(&self) -> u8
        ensures slots { result ≡ self.now.slots }
        ensures some { 1 ≤ result }
        ensures most { result ≤ 64 }
    {
        self.slots
    }

    pub fn call(&self) -> u32
        ensures { result ≡ self.now.call }
    {
        self.call
    }

    pub fn key(&self) -> Option<i64>
        ensures { result ≡ self.now.key }
    {
        self.key
    }
}
