//! Files and a sink that never fail.

ghost use Rattle.std.specs.Prelude.{◌≡◌, ℕ, ◌<◌, ◌≤◌, [], Ok, Some, None, length, IfOk};
ghost use Rattle.std.specs.String.{string_bytes};
ghost use Rattle.sdg_keep.specs.Named.{bytes_of};
ghost use Rattle.sdg_keep.specs.Reads.{PutsBytes, count_put};

use crate::files::{FileList, Files, bytes_at, put_bytes};
use crate::sink::Sink;
use sdg_base::KeepError;

/// Files in memory that are always read, and tell no reads. A name that none of them has reads as an
/// empty file.
#[derive(Debug, Drop)]
pub struct SureFiles {
    pub files: FileList,
}

impl SureFiles {
    /// The files of a list.
    pub fn new(files: FileList) -> SureFiles
        ensures { result.files ≡ files }
    {
        SureFiles { files }
    }
}

impl Files for SureFiles {
    ghost faults = { λ _. 0 };

    ghost content = { λ s name. Some (bytes_of s.files name) };

    ghost reads = { λ _. None };

    fn read(&mut self, name: &String, from: u64, into: &mut [u8]) -> Result<usize, KeepError>
        requires { 0 < length into.old }

        ensures bytes { IfOk result (λ n. PutsBytes (bytes_of self.old.files (string_bytes name.now)) from into.new n) }
        ensures amount { result
            ≡ Ok (count_put (bytes_of self.old.files (string_bytes name.now)) from into.old (length into.old)) }
        ensures unchanged { self.new ≡ self.old }
    {
        let room = into.len();
        Ok(put_bytes(bytes_at(&self.files, name), from, room, into))
    }
}

/// A place that takes all bytes and tells none of them.
#[derive(Clone, Copy, Debug, PartialEq, Eq)]
pub struct SureSink;

impl SureSink {
    /// A sink.
    pub fn new() -> SureSink
        ensures { result ≡ record {} }
    {
        SureSink
    }
}

impl Sink for SureSink {
    ghost faults = { λ _. 0 };

    ghost written = { λ _. None };

    fn write(&mut self, piece: &[u8]) -> Result<usize, KeepError>
        ensures { result ≡ Ok (length piece.now) }
    {
        Ok(piece.len())
    }
}
