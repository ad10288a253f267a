//! Files in memory, of which given reads fail.

ghost use Rattle.std.specs.Prelude.{◌≡◌, ℕ, ◌+◌, ◌-◌, ◌^◌, ◌<◌, ◌≤◌, ◌||◌, List, [], Option, Some, None, Err, is_some, is_none, length, min, max, ◌∷◌, ◌++◌, IfOk, OnOk, OnErr, IfSome, if◌then◌else◌};
ghost use Rattle.std.specs.String.{string_bytes};
ghost use Rattle.sdg_base.specs.declared.store.KeepError.TheVariants as keep;
ghost use Rattle.sdg_keep.specs.Failing.{fail_of, has_effect, FailsExactly};
ghost use Rattle.sdg_keep.specs.Faults.{HasCause};
ghost use Rattle.sdg_keep.specs.Named.{file_of, bytes_of};
ghost use Rattle.sdg_keep.specs.Readings.{NotesRead};
ghost use Rattle.sdg_keep.specs.Reads.{PutsBytes, count_put, with_put};

use crate::failing::{Fails, fail_at};
use crate::files::{FileList, Files, bytes_at, file_at, put_bytes};
use crate::read_call::{ReadCall, note_read};
use sdg_base::KeepError;
use sqlite_items::Items;
use std::alloc::Global;

/// Files in memory, of which given reads fail.
#[derive(Debug, Drop)]
pub struct MemoryFiles {
    pub files: FileList,
    pub fails: Fails,
    /// The calls of `read` so far, but for those that had no memory.
    pub calls: Items<ReadCall>,
    /// How many calls have failed, at most 2^64 - 1.
    pub faults: u64,
    /// How many bytes a read puts at most. 0 counts as 1.
    pub most: usize,
    alloc: Global,
}

impl MemoryFiles {
    /// The files of a list, of which the reads of these numbers fail. A read puts all bytes that
    /// there are and have room.
    pub fn new(alloc: Global, files: FileList, fails: Fails) -> MemoryFiles
        ensures given { (result.files ≡ files) × (result.fails ≡ fails) }
        ensures fresh { (result.calls ≡ []) × (result.faults ≡ 0) }
        ensures most { result.most ≡ usize.MAX }
    {
        MemoryFiles {
            files,
            fails,
            calls: Items::new(alloc),
            faults: 0,
            most: usize::MAX,
            alloc,
        }
    }
}

impl Files for MemoryFiles {
    ghost faults = { λ s. s.faults };

    ghost content = { λ s name. file_of s.files name };

    ghost reads = { λ s. Some s.calls };

    /// Fails exactly where the call's number is among those that are to fail or there is no file of
    /// the name, but for want of memory.
    fn read(&mut self, name: &String, from: u64, into: &mut [u8]) -> Result<usize, KeepError>
        requires { 0 < length into.old }

        ensures count { IfOk result (λ n. n ≤ length into.new) }
        ensures bytes { IfOk result (λ n. IfSome (file_of self.old.files (string_bytes name.now)) (λ file.
            PutsBytes file from into.new n)) }
        ensures same { (other : List ℕ) → file_of self.new.files other ≡ file_of self.old.files other }
        ensures cause { HasCause self.old.faults self.new.faults result }
        ensures noted { NotesRead (Some self.old.calls) (Some self.new.calls) (string_bytes name.now) from (length into.old) result }

        ensures exactly { FailsExactly
            (is_some (fail_of self.old.fails (length self.old.calls + 1)) || is_none (file_of self.old.files (string_bytes name.now)))
            result }
        ensures amount { IfOk result (λ n.
            n ≡ count_put (bytes_of self.old.files (string_bytes name.now)) from into.old (max self.old.most 1)) }
        ensures effect { result ≡ Err keep.Failed →
            into.new ≡ (if has_effect (fail_of self.old.fails (length self.old.calls + 1))
            then with_put (bytes_of self.old.files (string_bytes name.now)) from into.old (max self.old.most 1)
            else into.old) }

        ensures one { result ≡ Err keep.Failed → self.new.faults ≡ min (self.old.faults + 1) (2 ^ 64 - 1) }
        ensures kept { (self.new.files ≡ self.old.files) × (self.new.fails ≡ self.old.fails) × (self.new.most ≡ self.old.most) }
    {
        let fail = fail_at(&self.fails, self.calls.as_slice().len() as u64 + 1);
        let most = self.most.max(1);
        let file = bytes_at(&self.files, name);
        let gave = if fail.is_none() && file_at(&self.files, name).is_some() {
            Some(put_bytes(file, from, most, into))
        } else {
            None
        };
        if fail == Some(true) {
            put_bytes(file, from, most, into);
        }
        if note_read(self.alloc, &mut self.calls, name, from, into.len(), gave).is_err() {
            return Err(KeepError::Memory);
        }
        match gave {
            Some(count) => Ok(count),
            None => {
                self.faults = self.faults.saturating_add(1);
                Err(KeepError::Failed)
            }
        }
    }
}
