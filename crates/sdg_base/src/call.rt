//! Calls, and the steps of a history.

use crate::val::Vals;
use sqlite_items::Items;

/// A call of an entry method by its number, from 0 in text order, with one argument a parameter.
#[derive(Debug, Drop)]
pub struct Call {
    pub method: u16,
    pub args: Vals,
}

/// The calls in their order. The first is call 1.
pub type Calls = Items<Call>;

/// A step of the annotated source. Calls count from 1, instances and fields from 0.
#[derive(Clone, Copy, Debug, PartialEq, Eq)]
pub enum Step {
    Begin { call: u32 },
    Block { call: u32, instance: Option<u8> },
    Visit { call: u32, instance: u8 },
    Join { call: u32 },
    Grow { field: u16 },
}

/// Steps in their order.
pub type Steps = Items<Step>;
