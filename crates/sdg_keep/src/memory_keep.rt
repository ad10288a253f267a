//! Stable storage in memory, of which given calls fail.

ghost use Rattle.std.specs.Prelude.{◌≡◌, ◌↔◌, ◌+◌, ◌^◌, ◌-◌, ◌∷◌, ◌++◌, [], Some, None, Err, drop, IfOk, IfErr, is_ok, is_some, is_none, true, false, length, min, OnOk, OnErr, if◌then◌else◌};
ghost use Rattle.std.specs.Option.{option_copied};
ghost use Rattle.sdg_base.specs.declared.store.KeepError.TheVariants as keep;
ghost use Rattle.sdg_keep.specs.Failing.{fail_of, has_effect, FailsExactly, NotesCall};
ghost use Rattle.sdg_keep.specs.Faults.{HasCause};
ghost use Rattle.sdg_keep.specs.Keeping.{Same, Clears, PutsName, SyncsStore, AppendsNote, GetsName, GetsNotes, Turns, NotesTold, given};
ghost use Rattle.sdg_keep.specs.Stored.{stored, takes_effect, Makes, read_after, notes_after};
ghost use Rattle.sdg_keep.specs.declared.change.Change.TheVariants as change;
ghost use Rattle.sdg_keep.specs.declared.keep_call.KeepCall.TheVariants as call;

use crate::change::{Change, Changes, bytes_after, notes_behind};
use crate::failing::{Fails, fail_at};
use crate::keep::Keep;
use crate::keep_call::{KeepCall, KeepCalls};
use sdg_base::{Bytes, KeepError, Line, Name, Note, Notes};
use sqlite_items::Items;
use std::alloc::Global;

/// Stable storage in memory, of which given calls fail. A store is there from the first put to it on.
#[derive(Debug, Drop)]
pub struct MemoryKeep {
    /// What was cleared, put, synced and appended so far.
    pub changes: Changes,
    pub fails: Fails,
    /// The calls so far, but for those that had no memory.
    pub calls: KeepCalls,
    /// How many calls have failed, at most 2^64 - 1.
    pub faults: u64,
    alloc: Global,
}

/// The same bytes again.
pub(crate) fn copy_bytes(alloc: Global, bytes: &Bytes) -> Result<Bytes, KeepError>
    ensures same { IfOk result (λ copy. copy ≡ bytes.now) }
    ensures none { IfErr result (λ e. e ≡ keep.Memory) }
{
    match Bytes::from_slice(alloc, bytes.as_slice()) {
        Ok(copy) => Ok(copy),
        Err(_) => Err(KeepError::Memory),
    }
}

impl MemoryKeep {
    /// Stable storage that holds nothing, and of which the calls of these numbers fail.
    pub fn new(alloc: Global, fails: Fails) -> MemoryKeep
        ensures given { result.fails ≡ fails }
        ensures fresh { (result.changes ≡ []) × (result.calls ≡ []) × (result.faults ≡ 0) }
    {
        MemoryKeep {
            changes: Items::new(alloc),
            fails,
            calls: Items::new(alloc),
            faults: 0,
            alloc,
        }
    }

    /// Whether the next call takes effect though it fails, where it is to fail.
    fn next_fail(&self) -> Option<bool>
        ensures { result ≡ fail_of self.now.fails (length self.now.calls + 1) }
    {
        fail_at(&self.fails, self.calls.as_slice().len() as u64 + 1)
    }

    /// Notes a call, which fails or not.
    fn note(&mut self, call: KeepCall, fails: bool) -> Result<(), KeepError>
        ensures exactly { FailsExactly fails result }
        ensures noted { NotesCall self.old.calls self.new.calls call result }
        ensures cause { HasCause self.old.faults self.new.faults result }
        ensures one { result ≡ Err keep.Failed → self.new.faults ≡ min (self.old.faults + 1) (2 ^ 64 - 1) }
        ensures kept { (self.new.changes ≡ self.old.changes) × (self.new.fails ≡ self.old.fails) }
    {
        if self.calls.push(call).is_err() {
            return Err(KeepError::Memory);
        }
        if !fails {
            return Ok(());
        }
        self.faults = self.faults.saturating_add(1);
        Err(KeepError::Failed)
    }

    /// Notes a call, which fails or not, and makes its change where it takes effect.
    fn make(
        &mut self,
        call: KeepCall,
        change: Change,
        took: bool,
        fails: bool,
    ) -> Result<(), KeepError>
        ensures exactly { FailsExactly fails result }
        ensures noted { NotesCall self.old.calls self.new.calls call result }
        ensures made { Makes self.old.changes self.new.changes took change result }
        ensures cause { HasCause self.old.faults self.new.faults result }
        ensures one { result ≡ Err keep.Failed → self.new.faults ≡ min (self.old.faults + 1) (2 ^ 64 - 1) }
        ensures kept { self.new.fails ≡ self.old.fails }
    {
        if !took {
            return self.note(call, fails);
        }
        if self.changes.push(change).is_err() {
            return Err(KeepError::Memory);
        }
        match self.note(call, fails) {
            Err(KeepError::Memory) => {
                self.changes.pop();
                Err(KeepError::Memory)
            }
            Err(KeepError::Failed) => Err(KeepError::Failed),
            Ok(()) => Ok(()),
        }
    }
}

impl Keep for MemoryKeep {
    ghost faults = { λ s. s.faults };

    ghost calls = { λ s. Some s.calls };

    ghost stable = { λ s. Some (stored s.changes) };

    ghost honest = { λ _. Unit {0} };

    /// Fails exactly where the call's number is among those that are to fail, but for want of memory.
    /// So does each call below.
    fn clear(&mut self, _alloc: Global, stores: u8) -> Result<(), KeepError>
        ensures model { Clears (stored self.old.changes) (stored self.new.changes) result }
        ensures memory { result ≡ Err keep.Memory → Same (stored self.old.changes) (stored self.new.changes) }
        ensures cause { HasCause self.old.faults self.new.faults result }
        ensures noted { NotesTold (Some self.old.calls) (Some self.new.calls) (call.Clear stores (is_ok result)) result }

        ensures exactly { FailsExactly (is_some (fail_of self.old.fails (length self.old.calls + 1))) result }
        ensures made { Makes self.old.changes self.new.changes (takes_effect (fail_of self.old.fails (length self.old.calls + 1))) (change.Clear) result }
        ensures one { result ≡ Err keep.Failed → self.new.faults ≡ min (self.old.faults + 1) (2 ^ 64 - 1) }
        ensures kept { self.new.fails ≡ self.old.fails }
    {
        let fail = self.next_fail();
        let call = KeepCall::Clear {
            stores,
            done: fail.is_none(),
        };
        self.make(call, Change::Clear, fail.unwrap_or(true), fail.is_some())
    }

    fn put(&mut self, alloc: Global, store: u8, name: &Name, bytes: &Bytes) -> Result<(), KeepError>
        ensures model { PutsName store name.now bytes.now (stored self.old.changes) (stored self.new.changes) result }
        ensures memory { result ≡ Err keep.Memory → Same (stored self.old.changes) (stored self.new.changes) }
        ensures cause { HasCause self.old.faults self.new.faults result }
        ensures noted { NotesTold (Some self.old.calls) (Some self.new.calls) (call.Put store name.now bytes.now (is_ok result)) result }

        ensures exactly { FailsExactly (is_some (fail_of self.old.fails (length self.old.calls + 1))) result }
        ensures made { Makes self.old.changes self.new.changes true (change.Put store name.now bytes.now (takes_effect (fail_of self.old.fails (length self.old.calls + 1)))) result }
        ensures one { result ≡ Err keep.Failed → self.new.faults ≡ min (self.old.faults + 1) (2 ^ 64 - 1) }
        ensures kept { self.new.fails ≡ self.old.fails }
    {
        let fail = self.next_fail();
        let call = put_call(alloc, store, name, bytes, fail.is_none())?;
        let change = put_change(alloc, store, name, bytes, fail.unwrap_or(true))?;
        self.make(call, change, true, fail.is_some())
    }

    fn sync(&mut self, store: u8) -> Result<(), KeepError>
        ensures model { SyncsStore store (stored self.old.changes) (stored self.new.changes) result }
        ensures memory { result ≡ Err keep.Memory → Same (stored self.old.changes) (stored self.new.changes) }
        ensures cause { HasCause self.old.faults self.new.faults result }
        ensures noted { NotesTold (Some self.old.calls) (Some self.new.calls) (call.Sync store (is_ok result)) result }

        ensures exactly { FailsExactly (is_some (fail_of self.old.fails (length self.old.calls + 1))) result }
        ensures made { Makes self.old.changes self.new.changes (takes_effect (fail_of self.old.fails (length self.old.calls + 1))) (change.Sync store) result }
        ensures one { result ≡ Err keep.Failed → self.new.faults ≡ min (self.old.faults + 1) (2 ^ 64 - 1) }
        ensures kept { self.new.fails ≡ self.old.fails }
    {
        let fail = self.next_fail();
        let call = KeepCall::Sync {
            store,
            done: fail.is_none(),
        };
        let change = Change::Sync { store };
        self.make(call, change, fail.unwrap_or(true), fail.is_some())
    }

    fn append(&mut self, _alloc: Global, line: Line, note: Note) -> Result<(), KeepError>
        ensures model { AppendsNote line note (stored self.old.changes) (stored self.new.changes) result }
        ensures memory { result ≡ Err keep.Memory → Same (stored self.old.changes) (stored self.new.changes) }
        ensures cause { HasCause self.old.faults self.new.faults result }
        ensures noted { NotesTold (Some self.old.calls) (Some self.new.calls) (call.Append line note (is_ok result)) result }

        ensures exactly { FailsExactly (is_some (fail_of self.old.fails (length self.old.calls + 1))) result }
        ensures made { Makes self.old.changes self.new.changes (takes_effect (fail_of self.old.fails (length self.old.calls + 1))) (change.Append line note) result }
        ensures one { result ≡ Err keep.Failed → self.new.faults ≡ min (self.old.faults + 1) (2 ^ 64 - 1) }
        ensures kept { self.new.fails ≡ self.old.fails }
    {
        let fail = self.next_fail();
        let call = KeepCall::Append {
            line,
            note,
            done: fail.is_none(),
        };
        let added = Change::Append { line, note };
        self.make(call, added, fail.unwrap_or(true), fail.is_some())
    }

    fn get(&mut self, alloc: Global, store: u8, name: &Name) -> Result<Option<Bytes>, KeepError>
        ensures model { GetsName store name.now (stored self.old.changes) (stored self.new.changes) result }
        ensures memory { result ≡ Err keep.Memory → Same (stored self.old.changes) (stored self.new.changes) }
        ensures cause { HasCause self.old.faults self.new.faults result }
        ensures noted { NotesTold (Some self.old.calls) (Some self.new.calls) (call.Get store name.now (given result)) result }

        ensures exactly { FailsExactly (is_some (fail_of self.old.fails (length self.old.calls + 1))) result }
        ensures same { self.new.changes ≡ self.old.changes }
        ensures one { result ≡ Err keep.Failed → self.new.faults ≡ min (self.old.faults + 1) (2 ^ 64 - 1) }
        ensures kept { self.new.fails ≡ self.old.fails }
    {
        let fail = self.next_fail();
        let read = copy_read(alloc, bytes_after(&self.changes, store, name))?;
        let call = get_call(alloc, store, name, &read, fail.is_some())?;
        self.note(call, fail.is_some())?;
        Ok(read)
    }

    fn notes(&mut self, alloc: Global, line: Line, from: u64) -> Result<Notes, KeepError>
        ensures model { GetsNotes line from (stored self.old.changes) (stored self.new.changes) result }
        ensures memory { result ≡ Err keep.Memory → Same (stored self.old.changes) (stored self.new.changes) }
        ensures cause { HasCause self.old.faults self.new.faults result }
        ensures noted { NotesTold (Some self.old.calls) (Some self.new.calls) (call.Notes line from (given result)) result }

        ensures exactly { FailsExactly (is_some (fail_of self.old.fails (length self.old.calls + 1))) result }
        ensures same { self.new.changes ≡ self.old.changes }
        ensures one { result ≡ Err keep.Failed → self.new.faults ≡ min (self.old.faults + 1) (2 ^ 64 - 1) }
        ensures kept { self.new.fails ≡ self.old.fails }
    {
        let fail = self.next_fail();
        let notes = held_notes(alloc, &self.changes, line, from)?;
        let call = notes_call(alloc, line, from, &notes, fail.is_some())?;
        self.note(call, fail.is_some())?;
        Ok(notes)
    }
}

/// The bytes that are read, again.
pub(crate) fn copy_read(alloc: Global, read: Option<&Bytes>) -> Result<Option<Bytes>, KeepError>
    ensures same { IfOk result (λ copy. copy ≡ option_copied read.entry) }
    ensures none { IfErr result (λ e. e ≡ keep.Memory) }
{
    match read {
        None => Ok(None),
        Some(bytes) => match copy_bytes(alloc, bytes) {
            Ok(copy) => Ok(Some(copy)),
            Err(fault) => Err(fault),
        },
    }
}

/// The notes of a line after these changes, without the first `from`.
pub(crate) fn held_notes(
    alloc: Global,
    changes: &Changes,
    line: Line,
    from: u64,
) -> Result<Notes, KeepError>
    ensures same { IfOk result (λ notes. notes ≡ drop from (notes_after [] changes.now line)) }
    ensures none { IfErr result (λ e. e ≡ keep.Memory) }
{
    match notes_behind(alloc, changes, line, from) {
        Ok(notes) => Ok(notes),
        Err(_) => Err(KeepError::Memory),
    }
}

/// The call of `get`, which gives these bytes where it does not fail.
fn get_call(
    alloc: Global,
    store: u8,
    name: &Name,
    read: &Option<Bytes>,
    fails: bool,
) -> Result<KeepCall, KeepError>
    ensures same { IfOk result (λ made. made ≡ call.Get store name.now (if fails then None else Some read.now)) }
    ensures none { IfErr result (λ e. e ≡ keep.Memory) }
{
    let name = copy_bytes(alloc, name)?;
    if fails {
        return Ok(KeepCall::Get {
            store,
            name,
            gave: None,
        });
    }
    let gave = copy_read(alloc, read.as_ref())?;
    Ok(KeepCall::Get {
        store,
        name,
        gave: Some(gave),
    })
}

/// The call of `notes`, which gives these notes where it does not fail.
fn notes_call(
    alloc: Global,
    line: Line,
    from: u64,
    notes: &Notes,
    fails: bool,
) -> Result<KeepCall, KeepError>
    ensures same { IfOk result (λ made. made ≡ call.Notes line from (if fails then None else Some notes.now)) }
    ensures none { IfErr result (λ e. e ≡ keep.Memory) }
{
    if fails {
        return Ok(KeepCall::Notes {
            line,
            from,
            gave: None,
        });
    }
    match Notes::from_slice(alloc, notes.as_slice()) {
        Ok(copy) => Ok(KeepCall::Notes {
            line,
            from,
            gave: Some(copy),
        }),
        Err(_) => Err(KeepError::Memory),
    }
}

/// The call of `put`.
fn put_call(
    alloc: Global,
    store: u8,
    name: &Name,
    bytes: &Bytes,
    done: bool,
) -> Result<KeepCall, KeepError>
    ensures same { IfOk result (λ made. made ≡ call.Put store name.now bytes.now done) }
    ensures none { IfErr result (λ e. e ≡ keep.Memory) }
{
    let name = copy_bytes(alloc, name)?;
    let bytes = copy_bytes(alloc, bytes)?;
    Ok(KeepCall::Put {
        store,
        name,
        bytes,
        done,
    })
}

/// The change of a put, with or without effect.
pub(crate) fn put_change(
    alloc: Global,
    store: u8,
    name: &Name,
    bytes: &Bytes,
    took: bool,
) -> Result<Change, KeepError>
    ensures same { IfOk result (λ made. made ≡ change.Put store name.now bytes.now took) }
    ensures none { IfErr result (λ e. e ≡ keep.Memory) }
{
    let name = copy_bytes(alloc, name)?;
    let bytes = copy_bytes(alloc, bytes)?;
    Ok(Change::Put {
        store,
        name,
        bytes,
        took,
    })
}
