//! A send buffer: what was sent to one port, as far as it is kept.

ghost use Rattle.std.specs.Prelude.{◌≡◌, ◌≤◌, drop, length};

use crate::queue::Queue;
use sdg_base::Item;
use std::alloc::{AllocError, Global};

/// How many items were sent, and those of them that are kept: the last ones, without a gap. Items have
/// numbers from 1.
#[derive(Drop)]
pub struct Outbox {
    pub last: u64,
    pub kept: Queue,
    pub ghost within: { length kept ≤ last },
}

impl Outbox {
    ghost use Rattle.std.specs.Prelude.{[], ◌∷◌, ◌++◌, ◌+◌, ◌-◌, ◌^◌, ◌<◌, IfOk, OnOk, OnErr};
    ghost use Rattle.std.specs.Option.{option_copied};
    ghost use Rattle.channels.specs.Sent.{item_of, trimmed, OutboxUnchanged};

    /// Nothing was sent. It takes no memory.
    pub fn new(alloc: Global) -> Outbox
        ensures last { result.last ≡ 0 }
        ensures kept { result.kept ≡ [] }
    {
        Outbox {
            last: 0,
            kept: Queue::new(alloc),
        }
    }

    /// How many items are no longer kept.
    pub fn trimmed(&self) -> u64
        ensures { result ≡ trimmed self.now }
    {
        self.last - self.kept.len() as u64
    }

    /// Sends an item, and answers its number.
    pub fn send(&mut self, item: Item) -> Result<u64, AllocError>
        requires { self.old.last < 2 ^ 64 - 1 }
        ensures number { IfOk result (λ seq. seq ≡ self.new.last) }
        ensures last { OnOk result (self.new.last ≡ self.old.last + 1) }
        ensures kept { OnOk result (self.new.kept ≡ self.old.kept ++ item ∷ []) }
        ensures err { OnErr result (OutboxUnchanged self.old self.new) }
    {
        self.kept.push_back(item)?;
        self.last += 1;
        Ok(self.last)
    }

    /// The item of a number, where it is kept.
    pub fn peek(&self, seq: u64) -> Option<&Item>
        ensures { option_copied result ≡ item_of self.now seq }
    {
        let trimmed = self.trimmed();
        if seq <= trimmed {
            return None;
        }
        self.kept.get((seq - trimmed - 1) as usize)
    }

    /// Keeps the items of numbers up to `upto` no longer. It takes no memory.
    pub fn trim(&mut self, upto: u64)
        ensures last { self.new.last ≡ self.old.last }
        ensures kept { self.new.kept ≡ drop (upto - trimmed self.old) self.old.kept }
    {
        let trimmed = self.trimmed();
        if upto <= trimmed {
            return;
        }
        drop_first(&mut self.kept, upto - trimmed);
    }
}

/// Drops so many items, or all of fewer.
fn drop_first(items: &mut Queue, count: u64)
    ensures { items.new ≡ drop count items.old }
{
    let mut left = count;
    while left > 0 && items.len() > 0 {
        items.drop_front();
        left -= 1;
    }
}
