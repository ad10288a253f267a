//! The marks of a port, one for each port that sends to it.

ghost use Rattle.std.specs.Prelude.{◌≡◌, ◌≢◌, ◌↔◌, [], ◌+◌, ◌-◌, ◌^◌, ◌<◌, ◌≤◌, OnOk, OnErr, position};
ghost use Rattle.sdg_base.specs.declared.port.Port.{Port};
ghost use Rattle.channels.specs.Marks.{is_from, mark_of};

use crate::mark::Mark;
use sdg_base::{Port, same_port};
use sqlite_items::Items;
use std::alloc::{AllocError, Global};
use std::marker::Model;

/// What becomes of an item that arrives: it is the next of its channel, or one that was taken before,
/// or one before it has not arrived.
#[derive(Clone, Copy, Debug, PartialEq, Eq)]
pub enum Accept {
    Next,
    Repeat,
    Gap,
}

/// Marks by sending port. From a port without one nothing was taken.
#[derive(Drop)]
pub struct Marks {
    marks: Items<Mark>,
}

impl Model for Marks {
    ghost use Rattle.std.specs.Prelude.{List};
    ghost use Rattle.channels.specs.declared.mark.Mark.{Mark};

    ghost Value = { List Mark };

    ghost view = { λ m. m.marks };
}

impl Marks {
    /// Nothing was taken from any port. It takes no memory.
    pub fn new(alloc: Global) -> Marks
        ensures { result ≡ [] }
    {
        Marks {
            marks: Items::new(alloc),
        }
    }

    /// The number of the last item that was taken from a port, and 0 before the first.
    pub fn get(&self, from: Port) -> u64
        ensures { result ≡ mark_of self.now from }
    {
        match place_of(self.marks.as_slice(), from) {
            Some(at) => self.marks.as_slice()[at].taken,
            None => 0,
        }
    }

    /// What becomes of an item by its number in its channel, from 1.
    pub fn accept(&self, from: Port, seq: u64) -> Accept
        ensures repeat { (result ≡ Accept.Repeat) ↔ (seq ≤ mark_of self.now from) }
        ensures next { (result ≡ Accept.Next) ↔ (seq ≡ mark_of self.now from + 1) }
        ensures gap { (result ≡ Accept.Gap) ↔ (mark_of self.now from + 1 < seq) }
    {
        let taken = self.get(from);
        if seq <= taken {
            Accept::Repeat
        } else if seq - taken == 1 {
            Accept::Next
        } else {
            Accept::Gap
        }
    }

    /// One more item was taken from a port.
    pub fn raise(&mut self, from: Port) -> Result<(), AllocError>
        requires { mark_of self.old from < 2 ^ 64 - 1 }
        ensures ok { OnOk result (mark_of self.new from ≡ mark_of self.old from + 1) }
        ensures others { (other : Port) → other ≢ from → mark_of self.new other ≡ mark_of self.old other }
        ensures err { OnErr result (self.new ≡ self.old) }
    {
        let mark = Mark {
            from,
            taken: self.get(from) + 1,
        };
        match place_of(self.marks.as_slice(), from) {
            Some(at) => self.marks.set(at, mark),
            None => self.marks.push(mark)?,
        }
        Ok(())
    }
}

/// Where the mark of a port stands.
fn place_of(marks: &[Mark], from: Port) -> Option<usize>
    ensures { result ≡ position (is_from from) marks.now }
{
    marks.iter().position(|mark| same_port(mark.from, from))
}
