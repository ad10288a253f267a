//! A cell and what it does with an item.

ghost use Rattle.std.specs.Prelude.{◌≡◌, ◌-◌, ◌^◌, ◌<◌, ◌≤◌, IsSome, OnOk, drop, slice_get};
ghost use Rattle.std.specs.Option.{option_copied};
ghost use Rattle.sdg_base.specs.declared.port.Port.{Port};
ghost use Rattle.channels.specs.Marks.{mark_of};
ghost use Rattle.channels.specs.Outboxes.{outbox_of, SameButAt};
ghost use Rattle.channels.specs.Sent.{item_of, trimmed};
ghost use Rattle.early_task_code.specs.Machine.{runs};
ghost use Rattle.early_task_code.specs.Progress.{Taken, Progress, progress_after, first_progress};
ghost use Rattle.cell_machine.specs.Held.{state_held};
ghost use Rattle.cell_machine.specs.Shows.{Shows};

use crate::state::CellState;
use channels::{Marks, Outboxes};
use early_tables::Table;
use early_task_code::{Graph, run_task};
use sdg_base::{Item, Port};
use std::alloc::{AllocError, Global};

/// What a cell holds, how far it took each channel, what it sent, and how many items it took in all.
#[derive(Drop)]
pub struct Cell {
    pub state: CellState,
    pub marks: Marks,
    pub outboxes: Outboxes,
    pub position: u64,
}

impl Cell {
    /// The cell at a port before its first item. It takes no memory.
    pub fn new(alloc: Global, port: Port) -> Cell
        ensures { Shows result (first_progress port) }
    {
        let state = match port {
            Port::Slot { .. } => CellState::Table(Table::new(alloc)),
            _ => CellState::Nothing,
        };
        Cell {
            state,
            marks: Marks::new(alloc),
            outboxes: Outboxes::new(alloc),
            position: 0,
        }
    }

    /// Takes the next item from a port, and sends what it gives. After an `Err` the cell is only to be
    /// dropped.
    pub fn take(
        &mut self,
        alloc: Global,
        graph: &Graph,
        slots: u8,
        port: Port,
        from: Port,
        item: &Item,
    ) -> Result<(), AllocError>
        requires some { 1 ≤ slots }
        requires most { slots ≤ 64 }
        requires right { IsSome (runs graph.now slots port item.now (state_held self.old.state)) }
        requires position { self.old.position < 2 ^ 64 - 1 }
        requires mark { mark_of self.old.marks from < 2 ^ 64 - 1 }
        requires sent { (to : Port) → (outbox_of self.old.outboxes to).last < 2 ^ 64 - 1 }
        ensures shows { (p : Progress) (e : Taken) → e.from ≡ from → e.cell ≡ port → e.item ≡ item.now → Shows self.old p → OnOk result (Shows self.new (progress_after graph.now slots e p)) }
        ensures trimmed { OnOk result ((to : Port) → trimmed (outbox_of self.new.outboxes to) ≡ trimmed (outbox_of self.old.outboxes to)) }
    {
        let out = run_task(alloc, graph, slots, port, item, &mut self.state)?;
        let (to, sent) = out.addressed();
        self.outboxes.send(alloc, to, sent)?;
        self.marks.raise(from)?;
        self.position += 1;
        Ok(())
    }

    /// The item of a number, from 1, that the cell sent to a port, where it is kept.
    pub fn peek(&self, to: Port, seq: u64) -> Option<&Item>
        ensures kept { option_copied result ≡ item_of (outbox_of self.now.outboxes to) seq }
        ensures given { (p : Progress) → Shows self.now p → trimmed (outbox_of self.now.outboxes to) < seq → option_copied result ≡ slice_get (p.gave to) (seq - 1) }
    {
        self.outboxes.peek(to, seq)
    }

    /// Keeps the items that were sent to a port, of numbers up to `upto`, no longer. It takes no memory.
    pub fn trim(&mut self, to: Port, upto: u64)
        ensures shows { (p : Progress) → Shows self.old p → Shows self.new p }
        ensures kept { (outbox_of self.new.outboxes to).kept ≡ drop (upto - trimmed (outbox_of self.old.outboxes to)) (outbox_of self.old.outboxes to).kept }
        ensures others { SameButAt to self.old.outboxes self.new.outboxes }
    {
        self.outboxes.trim(to, upto);
    }
}
