//! Items, and the notes of the order in which cells take them.

ghost use Rattle.std.specs.Prelude.{◌≡◌, IfOk};

use crate::port::Port;
use crate::val::{Outcome, Vals, copy_outcome, copy_values};
use sqlite_items::Items;
use std::alloc::{AllocError, Global};

/// What one port sends to another for a call: its start, work on a keyed or local task, a visit of
/// one instance, a part for the join, or its end. Calls count from 1, tasks from 0.
#[derive(Debug, Drop)]
pub enum Item {
    Start {
        call: u32,
        method: u16,
        args: Vals,
    },
    Work {
        call: u32,
        task: u32,
        key: Option<i64>,
        turns: u32,
        vars: Vals,
    },
    Visit {
        call: u32,
        task: u32,
        width: u8,
        turns: u32,
        vars: Vals,
    },
    Part {
        call: u32,
        task: u32,
        width: u8,
        instance: u8,
        turns: u32,
        vars: Vals,
        value: Outcome,
    },
    Done {
        call: u32,
        outcome: Outcome,
    },
}

/// A cell took an item: the sending port, the item's number from 1, the pick of an instance, the
/// number of growths so far, and the step number from 1.
#[derive(Clone, Copy, Debug, PartialEq, Eq)]
pub struct Entry {
    pub from: Port,
    pub seq: u64,
    pub pick: u8,
    pub growths: u32,
    pub step: u64,
}

/// A log: one for each cell, one of growths and one of commits.
#[derive(Clone, Copy, Debug, PartialEq, Eq)]
pub enum Line {
    Cell(Port),
    Grow,
    Commit,
}

/// A record of a log.
#[derive(Clone, Copy, Debug, PartialEq, Eq)]
pub enum Note {
    Take(Entry),
    Grow { number: u32, field: u16, step: u64 },
    Commit { from: Port, seq: u64 },
}

/// Records in their order.
pub type Notes = Items<Note>;

/// The same item again.
pub fn copy_item(alloc: Global, item: &Item) -> Result<Item, AllocError>
    ensures { IfOk result (λ copy. copy ≡ item.now) }
{
    match item {
        Item::Start { call, method, args } => Ok(Item::Start {
            call: *call,
            method: *method,
            args: copy_values(alloc, args.as_slice())?,
        }),
        Item::Work {
            call,
            task,
            key,
            turns,
            vars,
        } => Ok(Item::Work {
            call: *call,
            task: *task,
            key: *key,
            turns: *turns,
            vars: copy_values(alloc, vars.as_slice())?,
        }),
        Item::Visit {
            call,
            task,
            width,
            turns,
            vars,
        } => Ok(Item::Visit {
            call: *call,
            task: *task,
            width: *width,
            turns: *turns,
            vars: copy_values(alloc, vars.as_slice())?,
        }),
        Item::Part {
            call,
            task,
            width,
            instance,
            turns,
            vars,
            value,
        } => Ok(Item::Part {
            call: *call,
            task: *task,
            width: *width,
            instance: *instance,
            turns: *turns,
            vars: copy_values(alloc, vars.as_slice())?,
            value: copy_outcome(alloc, value)?,
        }),
        Item::Done { call, outcome } => Ok(Item::Done {
            call: *call,
            outcome: copy_outcome(alloc, outcome)?,
        }),
    }
}
