//! Items: the call that they are of, and how it ended.

ghost use Rattle.std.specs.Prelude.{◌≡◌, IfOk};
ghost use Rattle.cluster.specs.History.{call_of};
ghost use Rattle.cluster.specs.Results.{IsEnd, done};

use crate::past::Ended;
use sdg_base::{Item, copy_outcome};
use std::alloc::{AllocError, Global};

/// The call that an item is of.
pub fn call_of(item: &Item) -> u32
    ensures { result ≡ call_of item.now }
{
    match item {
        Item::Start { call, .. } => *call,
        Item::Work { call, .. } => *call,
        Item::Visit { call, .. } => *call,
        Item::Part { call, .. } => *call,
        Item::Done { call, .. } => *call,
    }
}

/// How a call ended, as an item says.
pub fn ended_of(alloc: Global, item: &Item) -> Result<Ended, AllocError>
    requires { IsEnd item.now }
    ensures { IfOk result (λ ended. done ended ≡ item.now) }
{
    match item {
        Item::Done { call, outcome } => Ok(Ended {
            call: *call,
            outcome: copy_outcome(alloc, outcome)?,
        }),
        _ => unreachable!(),
    }
}
