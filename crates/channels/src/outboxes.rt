//! The send buffers of a port, one for each port that it sends to.

ghost use Rattle.std.specs.Prelude.{◌≡◌, ◌≢◌, ℕ, [], ◌∷◌, ◌++◌, ◌+◌, ◌-◌, ◌^◌, ◌<◌, IfOk, OnOk, OnErr, drop, position, length, slice_get};
ghost use Rattle.std.specs.Option.{option_copied};
ghost use Rattle.sdg_base.specs.declared.port.Port.{Port};
ghost use Rattle.channels.specs.Sent.{item_of, trimmed, OutboxUnchanged};
ghost use Rattle.channels.specs.Outboxes.{is_to, outbox_of, SameButAt};

use crate::outbox::Outbox;
use crate::sending::Sending;
use sdg_base::{Item, Port, same_port};
use std::alloc::{AllocError, Global};
use std::marker::Model;

/// Send buffers by receiving port. A port without one was sent nothing.
#[derive(Drop)]
pub struct Outboxes {
    sendings: Vec<Sending>,
}

impl Model for Outboxes {
    ghost use Rattle.std.specs.Prelude.{List};
    ghost use Rattle.channels.specs.declared.sending.Sending.{Sending};

    ghost Value = { List Sending };

    ghost view = { λ o. o.sendings.items };
}

impl Outboxes {
    /// Nothing was sent to any port. It takes no memory.
    pub fn new(alloc: Global) -> Outboxes
        ensures { result ≡ [] }
    {
        Outboxes {
            sendings: Vec::new(alloc),
        }
    }

    /// How many items were sent to a port.
    pub fn last(&self, to: Port) -> u64
        ensures { result ≡ (outbox_of self.now to).last }
    {
        match place_of(self.sendings.as_slice(), to) {
            Some(at) => self.sendings[at].outbox.last,
            None => 0,
        }
    }

    /// Sends an item to a port, and answers its number.
    pub fn send(&mut self, alloc: Global, to: Port, item: Item) -> Result<u64, AllocError>
        requires { (outbox_of self.old to).last < 2 ^ 64 - 1 }
        ensures number { IfOk result (λ seq. seq ≡ (outbox_of self.new to).last) }
        ensures last { OnOk result ((outbox_of self.new to).last ≡ (outbox_of self.old to).last + 1) }
        ensures kept { OnOk result ((outbox_of self.new to).kept ≡ (outbox_of self.old to).kept ++ item ∷ []) }
        ensures others { SameButAt to self.old self.new }
        ensures err { OnErr result (OutboxUnchanged (outbox_of self.old to) (outbox_of self.new to)) }
    {
        match place_of(self.sendings.as_slice(), to) {
            Some(at) => {
                let sending = &mut self.sendings[at];
                let seq = sending.outbox.send(item)?;
                Ok(seq)
            }
            None => {
                let mut outbox = Outbox::new(alloc);
                let seq = outbox.send(item)?;
                self.sendings.push(Sending { to, outbox })?;
                Ok(seq)
            }
        }
    }

    /// The item of a number that was sent to a port, where it is kept.
    pub fn peek(&self, to: Port, seq: u64) -> Option<&Item>
        ensures { option_copied result ≡ item_of (outbox_of self.now to) seq }
    {
        match place_of(self.sendings.as_slice(), to) {
            Some(at) => self.sendings[at].outbox.peek(seq),
            None => None,
        }
    }

    /// The item at a place, from 0, among those that are kept for a port.
    pub fn kept_at(&self, to: Port, at: u64) -> Option<&Item>
        ensures { option_copied result ≡ slice_get (outbox_of self.now to).kept at }
    {
        match place_of(self.sendings.as_slice(), to) {
            Some(place) => self.sendings[place].outbox.kept.get(at as usize),
            None => None,
        }
    }

    /// How many items that were sent to a port are kept.
    pub fn kept(&self, to: Port) -> u64
        ensures { result ≡ length (outbox_of self.now to).kept }
    {
        match place_of(self.sendings.as_slice(), to) {
            Some(place) => self.sendings[place].outbox.kept.len() as u64,
            None => 0,
        }
    }

    /// How many items that were sent to a port are no longer kept.
    pub fn trimmed(&self, to: Port) -> u64
        ensures { result ≡ trimmed (outbox_of self.now to) }
    {
        match place_of(self.sendings.as_slice(), to) {
            Some(place) => self.sendings[place].outbox.trimmed(),
            None => 0,
        }
    }

    /// Keeps the items that were sent to a port, of numbers up to `upto`, no longer. It takes no memory.
    pub fn trim(&mut self, to: Port, upto: u64)
        ensures last { (outbox_of self.new to).last ≡ (outbox_of self.old to).last }
        ensures kept { (outbox_of self.new to).kept ≡ drop (upto - trimmed (outbox_of self.old to)) (outbox_of self.old to).kept }
        ensures others { SameButAt to self.old self.new }
    {
        match place_of(self.sendings.as_slice(), to) {
            Some(at) => {
                let sending = &mut self.sendings[at];
                sending.outbox.trim(upto);
            }
            None => {}
        }
    }
}

/// Where the send buffer for a port stands.
fn place_of(sendings: &[Sending], to: Port) -> Option<usize>
    ensures { result ≡ position (is_to to) sendings.now }
{
    sendings
        .iter()
        .position(|sending| same_port(sending.to, to))
}
