//! Items in the order in which they were sent.

ghost use Rattle.std.specs.Prelude.{◌≡◌, [], ◌∷◌, ◌++◌, OnOk, OnErr, drop, length, slice_get};
ghost use Rattle.std.specs.Option.{option_copied};

use sdg_base::Item;
use std::alloc::{AllocError, Global};
use std::collections::VecDeque;
use std::marker::Model;

/// Items, seen as the list of them. Items enter at the end and leave at the front, each in constant
/// time.
#[derive(Drop)]
pub struct Queue {
    items: VecDeque<Item>,
}

impl Model for Queue {
    ghost use Rattle.std.specs.Prelude.{List};
    ghost use Rattle.sdg_base.specs.declared.item.Item.{Item};

    ghost Value = { List Item };

    ghost view = { λ q. q.items.items };
}

impl Queue {
    /// No items. It takes no memory.
    pub fn new(alloc: Global) -> Queue
        ensures { result ≡ [] }
    {
        Queue {
            items: VecDeque::new(alloc),
        }
    }

    pub fn len(&self) -> usize
        ensures { result ≡ length self.now }
    {
        self.items.len()
    }

    /// The item at an index from 0.
    pub fn get(&self, at: usize) -> Option<&Item>
        ensures { option_copied result ≡ slice_get self.now at }
    {
        self.items.get(at)
    }

    pub fn push_back(&mut self, item: Item) -> Result<(), AllocError>
        ensures ok { OnOk result (self.new ≡ self.old ++ item ∷ []) }
        ensures err { OnErr result (self.new ≡ self.old) }
    {
        self.items.push_back(item)?;
        Ok(())
    }

    /// Drops the first item, where there is one.
    pub fn drop_front(&mut self)
        ensures { self.new ≡ drop 1 self.old }
    {
        self.items.pop_front();
    }
}
