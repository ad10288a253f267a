//! Files that are read by name.

ghost use Rattle.std.specs.Prelude.{◌≡◌, ℕ, ◌<◌, ◌≤◌, List, Option, length, IfOk, IfSome};
ghost use Rattle.std.specs.String.{string_bytes};
ghost use Rattle.std.specs.Option.{option_copied};
ghost use Rattle.sdg_keep.specs.Faults.{HasCause};
ghost use Rattle.sdg_keep.specs.Named.{file_of, bytes_of};
ghost use Rattle.sdg_keep.specs.declared.read_call.ReadCall.{ReadCall};
ghost use Rattle.sdg_keep.specs.Readings.{NotesRead};
ghost use Rattle.sdg_keep.specs.Reads.{PutsBytes, count_put, with_put};

use sdg_base::{Bytes, KeepError, Name};
use sqlite_items::Items;

/// Files by name, each with its bytes. Of a name that stands twice the first file counts.
pub type FileList = Items<(Name, Bytes)>;

/// The bytes of the first file of a name.
pub(crate) fn file_at<'a>(files: &'a FileList, name: &String) -> Option<&'a Bytes>
    ensures { option_copied result ≡ file_of files.now (string_bytes name.now) }
{
    for file in files.as_slice() {
        if file.0.as_slice() == name.as_bytes() {
            return Some(&file.1);
        }
    }
    None
}

/// The bytes of the first file of a name, none where there is no such file.
pub(crate) fn bytes_at<'a>(files: &'a FileList, name: &String) -> &'a [u8]
    ensures { result.now ≡ bytes_of files.now (string_bytes name.now) }
{
    match file_at(files, name) {
        Some(bytes) => bytes.as_slice(),
        None => &[],
    }
}

/// Puts the bytes of a file from a place on at the start of a buffer, as many as there are and have
/// room, at most `most`, and answers how many.
pub(crate) fn put_bytes(file: &[u8], from: u64, most: usize, into: &mut [u8]) -> usize
    ensures count { result ≡ count_put file.now from into.old most }
    ensures bytes { into.new ≡ with_put file.now from into.old most }
{
    let start = file.len().min(from as usize);
    let rest = file.split_at(start).1;
    let count = most.min(into.len()).min(rest.len());
    let front = into.split_at_mut(count).0;
    front.copy_from_slice(rest.split_at(count).0);
    count
}

/// Files that are read by name. Where the bytes of a file aren't told, no clause speaks of them. Which
/// reads were made can be told of any files, since it says what they were asked and answered, and not
/// what they hold.
pub trait Files {
    /// How often a read has failed, at most 2^64 - 1. A count that stands there stays.
    ghost faults: { Self → ℕ };

    /// The bytes of the file of a name, where they are told.
    ghost content: { Self → List ℕ → Option (List ℕ) };

    /// The reads made so far, in their order, but for those that had no memory, where they are told.
    ghost reads: { Self → Option (List ReadCall) };

    /// Puts bytes of the file, from the one numbered `from` on (counted from 0, at most 2^24), at the
    /// start of `into`, and answers how many. It answers 0 exactly where the file has no byte there.
    /// `Failed` where the file cannot be read, `Memory` where there is no memory for it. After an
    /// error the bytes of `into` may be others.
    fn read(&mut self, name: &String, from: u64, into: &mut [u8]) -> Result<usize, KeepError>
        requires room { 0 < length into.old }
        requires near { from ≤ 16777216 }

        ensures count { IfOk result (λ n. n ≤ length into.new) }
        ensures bytes { IfOk result (λ n. IfSome (content self.old (string_bytes name.now)) (λ file.
            PutsBytes file from into.new n)) }
        ensures same { (other : List ℕ) → content self.new other ≡ content self.old other }
        ensures cause { HasCause (faults self.old) (faults self.new) result }
        ensures noted { NotesRead (reads self.old) (reads self.new) (string_bytes name.now) from (length into.old) result };
}
