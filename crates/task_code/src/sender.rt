//! Who sends what a task gives.

ghost use Rattle.std.specs.Prelude.{◌≤◌, length};
ghost use Rattle.graph_safety.specs.Safe.{AreWidths};

use flat_code::Graph;
use sdg_base::Widths;
use std::alloc::Global;

/// The visit that an item is part of: how many instances were visited, which one this is, and the
/// number of the visit's task.
#[derive(Clone, Copy)]
pub struct Visited {
    pub width: u8,
    pub instance: u8,
    pub task: u32,
}

/// Who sends what a task gives: the graph, how many slots or instances each field has, the pick of an
/// instance, the call, and the visit where there is one.
#[derive(Clone, Copy)]
pub struct Sender<'g> {
    pub alloc: Global,
    pub graph: &'g Graph,
    pub widths: &'g Widths,
    pub pick: u8,
    pub call: u32,
    pub visited: Option<Visited>,
    ghost few_fields: { length graph.now.fields ≤ 64 },
    ghost widths_fit: { AreWidths graph.now widths.now },
}
