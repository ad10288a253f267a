//! The parts that wait at the join.

ghost use Rattle.std.specs.Prelude.{◌≡◌, ◌≢◌, ℕ, [], OnOk};
ghost use Rattle.std.specs.Option.{option_copied};
ghost use Rattle.flat_code.specs.Items.{with_part};
ghost use Rattle.graph_cells.specs.Gathered.{parts_of, if_any};

use crate::parts::add_part;
use sdg_base::Item;
use sqlite_items::Items;
use std::alloc::{AllocError, Global};
use std::collections::BTreeMap;
use std::marker::Model;
use task_code::Parts;

/// Calls in their order, each with its parts that wait, in the order of their instances.
#[derive(Drop)]
pub struct Gather {
    calls: BTreeMap<u32, Parts>,
}

impl Model for Gather {
    ghost use Rattle.graph_cells.specs.Gathered.{Waiting, AllHaveParts};

    ghost Value = { Waiting };

    ghost view = { λ g. g.calls.entries };

    ghost invariant = { λ g. AllHaveParts g.calls.entries };
}

impl Gather {
    /// No part waits. It takes no memory.
    pub fn new(alloc: Global) -> Gather
        ensures { result ≡ [] }
    {
        Gather {
            calls: BTreeMap::new(alloc),
        }
    }

    /// The parts of a call that wait, by rising instance; `None` exactly where none waits.
    pub fn parts(&self, call: u32) -> Option<&Parts>
        ensures { option_copied result ≡ if_any (parts_of self.now call) }
    {
        self.calls.get(&call)
    }

    /// The parts of a call that wait, or none.
    pub(crate) fn parts_or<'g>(&'g self, call: u32, none: &'g Parts) -> &'g Parts
        requires { none.now ≡ [] }
        ensures { result.now ≡ parts_of self.now call }
    {
        match self.parts(call) {
            Some(parts) => parts,
            None => none,
        }
    }

    /// Takes the parts of a call out.
    fn take(&mut self, alloc: Global, call: u32) -> Parts
        ensures parts { result ≡ parts_of self.old call }
        ensures none { parts_of self.new call ≡ [] }
        ensures others { (other : ℕ) → other ≢ call → parts_of self.new other ≡ parts_of self.old other }
    {
        match self.calls.remove(&call) {
            Some(parts) => parts,
            None => Items::new(alloc),
        }
    }

    /// Puts the parts of a call in, of which there are some.
    fn put(&mut self, call: u32, parts: Parts) -> Result<(), AllocError>
        requires { parts ≢ [] }
        ensures parts { OnOk result (parts_of self.new call ≡ parts) }
        ensures others { (other : ℕ) → other ≢ call → OnOk result (parts_of self.new other ≡ parts_of self.old other) }
    {
        self.calls.insert(call, parts)?;
        Ok(())
    }

    /// One more part of a call waits. After an `Err` its parts may be lost.
    pub(crate) fn add(&mut self, alloc: Global, call: u32, part: Item) -> Result<(), AllocError>
        ensures parts { OnOk result (parts_of self.new call ≡ with_part part (parts_of self.old call)) }
        ensures others { (other : ℕ) → other ≢ call → OnOk result (parts_of self.new other ≡ parts_of self.old other) }
    {
        let mut parts = self.take(alloc, call);
        add_part(&mut parts, part)?;
        self.put(call, parts)
    }

    /// No part of a call waits any longer.
    pub(crate) fn remove(&mut self, call: u32)
        ensures none { parts_of self.new call ≡ [] }
        ensures others { (other : ℕ) → other ≢ call → parts_of self.new other ≡ parts_of self.old other }
    {
        self.calls.remove(&call);
    }
}
