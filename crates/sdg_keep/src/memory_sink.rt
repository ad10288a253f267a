//! A sink in memory, of which given writes fail.

ghost use Rattle.std.specs.Prelude.{◌≡◌, ◌+◌, ◌-◌, ◌^◌, ◌<◌, ◌≤◌, ◌∷◌, ◌++◌, [], Some, Err, is_some, length, take, min, max, IfOk, OnOk, OnErr, if◌then◌else◌};
ghost use Rattle.sdg_base.specs.declared.store.KeepError.TheVariants as keep;
ghost use Rattle.sdg_keep.specs.Failing.{fail_of, has_effect, FailsExactly, NotesCall};
ghost use Rattle.sdg_keep.specs.Faults.{HasCause};
ghost use Rattle.sdg_keep.specs.Writes.{Appends, TakesOnFault};

use crate::failing::{Fails, fail_at};
use crate::sink::Sink;
use sdg_base::{Bytes, KeepError};
use sqlite_items::Items;
use std::alloc::{AllocError, Global};

/// A sink in memory, of which given writes fail.
#[derive(Debug, Drop)]
pub struct MemorySink {
    pub written: Vec<u8>,
    pub fails: Fails,
    /// The pieces of the calls of `write` so far, but for those that had no memory.
    pub calls: Items<Bytes>,
    /// How many calls have failed, at most 2^64 - 1.
    pub faults: u64,
    /// How many bytes a write takes at most. 0 counts as 1. A write that takes effect though it fails
    /// takes its whole piece.
    pub most: usize,
    alloc: Global,
}

impl MemorySink {
    /// A sink to which nothing was written, and of which the writes of these numbers fail. A write
    /// takes its whole piece.
    pub fn new(alloc: Global, fails: Fails) -> MemorySink
        ensures given { result.fails ≡ fails }
        ensures fresh { (result.written.items ≡ []) × (result.calls ≡ []) × (result.faults ≡ 0) }
        ensures most { result.most ≡ usize.MAX }
    {
        MemorySink {
            written: Vec::new(alloc),
            fails,
            calls: Items::new(alloc),
            faults: 0,
            most: usize::MAX,
            alloc,
        }
    }

    /// Notes a call of `write`, and takes the first `count` bytes of its piece.
    fn take(&mut self, piece: &[u8], count: usize) -> Result<(), AllocError>
        requires { count ≤ length piece.now }

        ensures taken { OnOk result (self.new.written.items ≡ self.old.written.items ++ take count piece.now) }
        ensures noted { OnOk result (self.new.calls ≡ self.old.calls ++ piece.now ∷ []) }
        ensures err { OnErr result (
            (self.new.written.items ≡ self.old.written.items) × (self.new.calls ≡ self.old.calls)) }
        ensures kept { (self.new.fails ≡ self.old.fails) × (self.new.faults ≡ self.old.faults) × (self.new.most ≡ self.old.most) }
    {
        let call = Bytes::from_slice(self.alloc, piece)?;
        let start = self.written.len();
        self.written.extend_from_slice(piece.split_at(count).0)?;
        let noted = self.calls.push(call);
        if noted.is_err() {
            self.written.truncate(start);
        }
        noted
    }
}

impl Sink for MemorySink {
    ghost faults = { λ s. s.faults };

    ghost written = { λ s. Some s.written.items };

    /// Fails exactly where the call's number is among those that are to fail, but for want of memory.
    fn write(&mut self, piece: &[u8]) -> Result<usize, KeepError>
        requires { 0 < length piece.now }

        ensures count { IfOk result (λ n. (0 < n) × (n ≤ length piece.now)) }
        ensures took { IfOk result (λ n.
            Appends (Some self.old.written.items) (Some self.new.written.items) (take n piece.now)) }
        ensures failed { TakesOnFault (Some self.old.written.items) (Some self.new.written.items) piece.now result }
        ensures cause { HasCause self.old.faults self.new.faults result }

        ensures exactly { FailsExactly (is_some (fail_of self.old.fails (length self.old.calls + 1))) result }
        ensures amount { IfOk result (λ n. n ≡ min (max self.old.most 1) (length piece.now)) }
        ensures effect { result ≡ Err keep.Failed →
            self.new.written.items ≡ self.old.written.items
            ++ (if has_effect (fail_of self.old.fails (length self.old.calls + 1)) then piece.now else []) }

        ensures noted { NotesCall self.old.calls self.new.calls piece.now result }
        ensures one { result ≡ Err keep.Failed → self.new.faults ≡ min (self.old.faults + 1) (2 ^ 64 - 1) }
        ensures kept { (self.new.fails ≡ self.old.fails) × (self.new.most ≡ self.old.most) }
    {
        let fail = fail_at(&self.fails, self.calls.as_slice().len() as u64 + 1);
        let count = match fail {
            None => self.most.max(1).min(piece.len()),
            Some(true) => piece.len(),
            Some(false) => 0,
        };
        if self.take(piece, count).is_err() {
            return Err(KeepError::Memory);
        }
        if fail.is_none() {
            return Ok(count);
        }
        self.faults = self.faults.saturating_add(1);
        Err(KeepError::Failed)
    }
}
