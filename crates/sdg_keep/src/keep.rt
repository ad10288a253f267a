//! Stable storage: numbered stores of names with bytes, and lines of notes.

ghost use Rattle.std.specs.Prelude.{◌≡◌, ◌↔◌, ℕ, List, Option, Err, is_ok};
ghost use Rattle.sdg_base.specs.declared.store.KeepError.TheVariants as keep;
ghost use Rattle.sdg_keep.specs.Faults.{HasCause};
ghost use Rattle.sdg_keep.specs.Keeping.{Same, Clears, PutsName, SyncsStore, AppendsNote, GetsName, GetsNotes, Turns, NotesTold, given};
ghost use Rattle.sdg_keep.specs.Stable.{Stable};
ghost use Rattle.sdg_keep.specs.declared.keep_call.KeepCall.{KeepCall};
ghost use Rattle.sdg_keep.specs.declared.keep_call.KeepCall.TheVariants as call;

use sdg_base::{Bytes, KeepError, Line, Name, Note, Notes};
use std::alloc::Global;

/// Stable storage: numbered stores, of which each has names with bytes, and lines of notes. Where it
/// does not tell what it holds, no clause speaks of that. After `Memory` all is as it was.
pub trait Keep {
    /// How often a call has failed, at most 2^64 - 1. A count that stands there stays.
    ghost faults: { Self → ℕ };

    /// The calls so far with what they answered, in their order, but for those that had no memory,
    /// where they are told.
    ghost calls: { Self → Option (List KeepCall) };

    /// What stores and lines hold, where it is told.
    ghost stable: { Self → Option Stable };

    /// It holds what the calls say. A storage that is not honest may hold and give anything.
    ghost honest: { Self → Type 0 };

    /// Leaves every store without names and every line empty. After `Failed` they may hold anything.
    fn clear(&mut self, alloc: Global, stores: u8) -> Result<(), KeepError>
        ensures model { honest self.old → Turns (λ before now. Clears before now result) (stable self.old) (stable self.new) }
        ensures memory { result ≡ Err keep.Memory → Turns Same (stable self.old) (stable self.new) }
        ensures honesty { honest self.new ↔ honest self.old }
        ensures cause { HasCause (faults self.old) (faults self.new) result }
        ensures noted { NotesTold (calls self.old) (calls self.new) (call.Clear stores (is_ok result)) result };

    /// Puts the bytes of a name on a store, which are not synced yet. After `Failed` the name counts
    /// as put, and a read gives the bytes that it gave or the new ones.
    fn put(&mut self, alloc: Global, store: u8, name: &Name, bytes: &Bytes) -> Result<(), KeepError>
        ensures model { honest self.old → Turns (λ before now. PutsName store name.now bytes.now before now result) (stable self.old) (stable self.new) }
        ensures memory { result ≡ Err keep.Memory → Turns Same (stable self.old) (stable self.new) }
        ensures honesty { honest self.new ↔ honest self.old }
        ensures cause { HasCause (faults self.old) (faults self.new) result }
        ensures noted { NotesTold (calls self.old) (calls self.new) (call.Put store name.now bytes.now (is_ok result)) result };

    /// Syncs every name of a store. After `Failed` each of them is synced or as it was.
    fn sync(&mut self, store: u8) -> Result<(), KeepError>
        ensures model { honest self.old → Turns (λ before now. SyncsStore store before now result) (stable self.old) (stable self.new) }
        ensures memory { result ≡ Err keep.Memory → Turns Same (stable self.old) (stable self.new) }
        ensures honesty { honest self.new ↔ honest self.old }
        ensures cause { HasCause (faults self.old) (faults self.new) result }
        ensures noted { NotesTold (calls self.old) (calls self.new) (call.Sync store (is_ok result)) result };

    /// Adds a note at the end of a line. After `Failed` the line is as it was, or with the note.
    fn append(&mut self, alloc: Global, line: Line, note: Note) -> Result<(), KeepError>
        ensures model { honest self.old → Turns (λ before now. AppendsNote line note before now result) (stable self.old) (stable self.new) }
        ensures memory { result ≡ Err keep.Memory → Turns Same (stable self.old) (stable self.new) }
        ensures honesty { honest self.new ↔ honest self.old }
        ensures cause { HasCause (faults self.old) (faults self.new) result }
        ensures noted { NotesTold (calls self.old) (calls self.new) (call.Append line note (is_ok result)) result };

    /// The bytes of a name on a store, `None` where there is no such name.
    fn get(&mut self, alloc: Global, store: u8, name: &Name) -> Result<Option<Bytes>, KeepError>
        ensures model { honest self.old → Turns (λ before now. GetsName store name.now before now result) (stable self.old) (stable self.new) }
        ensures memory { result ≡ Err keep.Memory → Turns Same (stable self.old) (stable self.new) }
        ensures honesty { honest self.new ↔ honest self.old }
        ensures cause { HasCause (faults self.old) (faults self.new) result }
        ensures noted { NotesTold (calls self.old) (calls self.new) (call.Get store name.now (given result)) result };

    /// The notes of a line behind the first `from` of them.
    fn notes(&mut self, alloc: Global, line: Line, from: u64) -> Result<Notes, KeepError>
        ensures model { honest self.old → Turns (λ before now. GetsNotes line from before now result) (stable self.old) (stable self.new) }
        ensures memory { result ≡ Err keep.Memory → Turns Same (stable self.old) (stable self.new) }
        ensures honesty { honest self.new ↔ honest self.old }
        ensures cause { HasCause (faults self.old) (faults self.new) result }
        ensures noted { NotesTold (calls self.old) (calls self.new) (call.Notes line from (given result)) result };
}
