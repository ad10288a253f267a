//! Stable storage that never fails.

ghost use Rattle.std.specs.Prelude.{◌≡◌, ◌↔◌, ℕ, ◌∷◌, ◌++◌, [], Some, None, Err, false, true, if◌then◌else◌};
ghost use Rattle.sdg_base.specs.declared.store.KeepError.TheVariants as keep;
ghost use Rattle.sdg_keep.specs.Failing.{FailsExactly};
ghost use Rattle.sdg_keep.specs.Keeping.{Same, Clears, PutsName, SyncsStore, AppendsNote, GetsName, GetsNotes, Turns, NotesTold};
ghost use Rattle.sdg_keep.specs.Stored.{stored, Makes};
ghost use Rattle.sdg_keep.specs.declared.change.Change.TheVariants as change;

use crate::change::{Change, Changes, bytes_after};
use crate::keep::Keep;
use crate::memory_keep::{copy_read, held_notes, put_change};
use sdg_base::{Bytes, KeepError, Line, Name, Note, Notes};
use sqlite_items::Items;
use std::alloc::Global;

/// Stable storage in memory of which no call fails, and that tells no calls. A store is there from the
/// first put to it on.
#[derive(Debug, Drop)]
pub struct SureKeep {
    /// What was cleared, put, synced and appended so far.
    pub changes: Changes,
}

impl SureKeep {
    /// Stable storage that holds nothing.
    pub fn new(alloc: Global) -> SureKeep
        ensures { result.changes ≡ [] }
    {
        SureKeep {
            changes: Items::new(alloc),
        }
    }

    /// Makes a change.
    fn make(&mut self, change: Change) -> Result<(), KeepError>
        ensures sure { FailsExactly false result }
        ensures made { Makes self.old.changes self.new.changes true change result }
    {
        match self.changes.push(change) {
            Ok(()) => Ok(()),
            Err(_) => Err(KeepError::Memory),
        }
    }
}

impl Keep for SureKeep {
    ghost faults = { λ _. 0 };

    ghost calls = { λ _. None };

    ghost stable = { λ s. Some (stored s.changes) };

    ghost honest = { λ _. Unit {0} };

    fn clear(&mut self, _alloc: Global, _stores: u8) -> Result<(), KeepError>
        ensures model { Clears (stored self.old.changes) (stored self.new.changes) result }
        ensures memory { result ≡ Err keep.Memory → Same (stored self.old.changes) (stored self.new.changes) }
        ensures sure { FailsExactly false result }

        ensures made { Makes self.old.changes self.new.changes true (change.Clear) result }
    {
        self.make(Change::Clear)
    }

    fn put(&mut self, alloc: Global, store: u8, name: &Name, bytes: &Bytes) -> Result<(), KeepError>
        ensures model { PutsName store name.now bytes.now (stored self.old.changes) (stored self.new.changes) result }
        ensures memory { result ≡ Err keep.Memory → Same (stored self.old.changes) (stored self.new.changes) }
        ensures sure { FailsExactly false result }

        ensures made { Makes self.old.changes self.new.changes true (change.Put store name.now bytes.now true) result }
    {
        let change = put_change(alloc, store, name, bytes, true)?;
        self.make(change)
    }

    fn sync(&mut self, store: u8) -> Result<(), KeepError>
        ensures model { SyncsStore store (stored self.old.changes) (stored self.new.changes) result }
        ensures memory { result ≡ Err keep.Memory → Same (stored self.old.changes) (stored self.new.changes) }
        ensures sure { FailsExactly false result }

        ensures made { Makes self.old.changes self.new.changes true (change.Sync store) result }
    {
        self.make(Change::Sync { store })
    }

    fn append(&mut self, _alloc: Global, line: Line, note: Note) -> Result<(), KeepError>
        ensures model { AppendsNote line note (stored self.old.changes) (stored self.new.changes) result }
        ensures memory { result ≡ Err keep.Memory → Same (stored self.old.changes) (stored self.new.changes) }
        ensures sure { FailsExactly false result }

        ensures made { Makes self.old.changes self.new.changes true (change.Append line note) result }
    {
        self.make(Change::Append { line, note })
    }

    fn get(&mut self, alloc: Global, store: u8, name: &Name) -> Result<Option<Bytes>, KeepError>
        ensures model { GetsName store name.now (stored self.old.changes) (stored self.new.changes) result }
        ensures memory { result ≡ Err keep.Memory → Same (stored self.old.changes) (stored self.new.changes) }
        ensures sure { FailsExactly false result }

        ensures unchanged { self.new ≡ self.old }
    {
        copy_read(alloc, bytes_after(&self.changes, store, name))
    }

    fn notes(&mut self, alloc: Global, line: Line, from: u64) -> Result<Notes, KeepError>
        ensures model { GetsNotes line from (stored self.old.changes) (stored self.new.changes) result }
        ensures memory { result ≡ Err keep.Memory → Same (stored self.old.changes) (stored self.new.changes) }
        ensures sure { FailsExactly false result }

        ensures unchanged { self.new ≡ self.old }
    {
        held_notes(alloc, &self.changes, line, from)
    }
}
