//! A cell, and what it does with the items of its channels.

ghost use Rattle.std.specs.Prelude.{◌≡◌, ◌≢◌, ◌↔◌, ℕ, ◌+◌, ◌-◌, ◌^◌, ◌<◌, ◌≤◌, IfOk, OnOk, IsTrue, Option, slice_get};
ghost use Rattle.std.specs.Option.{option_copied};
ghost use Rattle.sdg_base.specs.declared.port.Port.{Port};
ghost use Rattle.state_classes.specs.States.{State};
ghost use Rattle.channels.specs.Marks.{mark_of};
ghost use Rattle.channels.specs.Outboxes.{outbox_of};
ghost use Rattle.channels.specs.Sent.{item_of, trimmed};
ghost use Rattle.flat_code.specs.declared.graph.Graph.{Graph};
ghost use Rattle.flat_code.specs.Fits.{fits};
ghost use Rattle.flat_code.specs.Verified.{IsVerified};
ghost use Rattle.graph_safety.specs.Safe.{AreWidths};
ghost use Rattle.tagged_agreement.specs.Machine.{Progress, Taken, first_progress, progress_after};
ghost use Rattle.graph_cells.specs.Held.{held};
ghost use Rattle.graph_cells.specs.Gathered.{found_by};
ghost use Rattle.graph_cells.specs.Processing.{cells_of, delivered, processed};
ghost use Rattle.graph_cells.specs.Sending.{HasRoom};
ghost use Rattle.graph_cells.specs.Shows.{Shows, Took, IsEntry, IsTrimmed};
ghost use Rattle.graph_cells.specs.Sound.{IsSound, HasFieldOf};

use crate::gather::Gather;
use crate::processing::{pass_on, process};
use crate::state::CellState;
use channels::{Accept, Marks, Outboxes};
use flat_code::Graph;
use sdg_base::{Entry, Item, Port, Widths};
use std::alloc::{AllocError, Global};

/// What a cell holds, the parts that wait in it, the number of the last item that it took from each
/// port, what it sent, and how many items it took in all.
#[derive(Drop)]
pub struct Cell {
    pub state: CellState,
    pub gather: Gather,
    pub marks: Marks,
    pub outboxes: Outboxes,
    pub position: u64,
}

impl Cell {
    /// The cell of a port before its first item. It takes no memory.
    pub fn new(alloc: Global, graph: &Graph, port: Port) -> Cell
        ensures shows { (slots : ℕ) → Shows result (first_progress (cells_of graph.now slots) port) }
        ensures sound { HasFieldOf graph.now port → IsSound graph.now port result }
    {
        Cell {
            state: CellState::new(alloc, graph, port),
            gather: Gather::new(alloc),
            marks: Marks::new(alloc),
            outboxes: Outboxes::new(alloc),
            position: 0,
        }
    }

    /// Takes the next item of the entry's channel, and sends what it gives. `widths` says how many
    /// slots or instances each field had then, from 1 to 64. A part that does not belong to those that
    /// wait changes nothing but the mark and the position. `Err` is out of memory, and the cell is then
    /// only to be dropped.
    pub fn take(
        &mut self,
        alloc: Global,
        graph: &Graph,
        port: Port,
        item: &Item,
        entry: &Entry,
        widths: &Widths,
    ) -> Result<(), AllocError>
        requires graph { IsVerified graph.now }
        requires widths { AreWidths graph.now widths.now }
        requires item { IsTrue (fits graph.now widths.now port item.now) }
        requires sound { IsSound graph.now port self.old }
        requires next { entry.now.seq ≡ mark_of self.old.marks entry.now.from + 1 }
        requires position { self.old.position < 2 ^ 64 - 1 }
        requires room { HasRoom self.old.outboxes }
        ensures took { OnOk result (Took entry.now.from item.now (processed graph.now port item.now (found_by item.now self.old.gather) (held self.old.state) entry.now.pick widths.now) self.old self.new) }
        ensures shows { (slots : ℕ) (now : Progress (Option State)) (e : Taken) → IsEntry graph.now slots port entry.now.from item.now entry.now.pick widths.now e → Shows self.old now → OnOk result (Shows self.new (progress_after (cells_of graph.now slots) e now)) }
        ensures sound { OnOk result (IsSound graph.now port self.new) }
        ensures trimmed { OnOk result ((to : Port) → trimmed (outbox_of self.new.outboxes to) ≡ trimmed (outbox_of self.old.outboxes to)) }
    {
        // It is read for its range, which bounds the mark below it.
        let _number = entry.seq;
        let out = process(
            alloc,
            graph,
            port,
            item,
            &self.gather,
            &mut self.state,
            entry.pick,
            widths,
        )?;
        pass_on(&mut self.gather, &mut self.outboxes, alloc, item, out)?;
        self.marks.raise(entry.from)?;
        self.position += 1;
        Ok(())
    }

    /// Takes an item where it is the next of its channel. One that was taken before, or that comes before
    /// another that was not, is dropped, and the cell stays as it is. `Err` is out of memory, and the
    /// cell is then only to be dropped.
    pub fn deliver(
        &mut self,
        alloc: Global,
        graph: &Graph,
        port: Port,
        item: &Item,
        entry: &Entry,
        widths: &Widths,
    ) -> Result<Accept, AllocError>
        requires graph { IsVerified graph.now }
        requires widths { AreWidths graph.now widths.now }
        requires item { IsTrue (fits graph.now widths.now port item.now) }
        requires sound { IsSound graph.now port self.old }
        requires position { self.old.position < 2 ^ 64 - 1 }
        requires room { HasRoom self.old.outboxes }
        ensures repeat { IfOk result (λ accept. (accept ≡ Accept.Repeat) ↔ (entry.now.seq ≤ mark_of self.old.marks entry.now.from)) }
        ensures next { IfOk result (λ accept. (accept ≡ Accept.Next) ↔ (entry.now.seq ≡ mark_of self.old.marks entry.now.from + 1)) }
        ensures took { IfOk result (λ accept. accept ≡ Accept.Next → Took entry.now.from item.now (processed graph.now port item.now (found_by item.now self.old.gather) (held self.old.state) entry.now.pick widths.now) self.old self.new) }
        ensures dropped { IfOk result (λ accept. accept ≢ Accept.Next → self.new ≡ self.old) }
        ensures shows { (slots : ℕ) (now : Progress (Option State)) (e : Taken) → IsEntry graph.now slots port entry.now.from item.now entry.now.pick widths.now e → e.number ≡ entry.now.seq → Shows self.old now → OnOk result (Shows self.new (delivered (cells_of graph.now slots) e now)) }
        ensures sound { OnOk result (IsSound graph.now port self.new) }
        ensures trimmed { OnOk result ((to : Port) → trimmed (outbox_of self.new.outboxes to) ≡ trimmed (outbox_of self.old.outboxes to)) }
    {
        let accept = self.marks.accept(entry.from, entry.seq);
        match accept {
            Accept::Next => {
                self.take(alloc, graph, port, item, entry, widths)?;
                Ok(accept)
            }
            Accept::Repeat | Accept::Gap => Ok(accept),
        }
    }

    /// The item of a number, from 1, that the cell sent to a port; `None` exactly where it is not kept.
    pub fn peek(&self, to: Port, seq: u64) -> Option<&Item>
        ensures kept { option_copied result ≡ item_of (outbox_of self.now.outboxes to) seq }
        ensures given { (now : Progress (Option State)) → Shows self.now now → trimmed (outbox_of self.now.outboxes to) < seq → option_copied result ≡ slice_get (now.gave to) (seq - 1) }
    {
        self.outboxes.peek(to, seq)
    }

    /// Keeps the items that were sent to a port, of numbers up to `upto`, no longer. Nothing else changes.
    /// It takes no memory.
    pub fn trim(&mut self, to: Port, upto: u64)
        ensures trimmed { IsTrimmed to upto self.old self.new }
        ensures shows { (now : Progress (Option State)) → Shows self.old now → Shows self.new now }
        ensures sound { (graph : Graph) (port : Port) → IsSound graph port self.old → IsSound graph port self.new }
    {
        self.outboxes.trim(to, upto);
    }
}
