//! Files read one after the other.

ghost use Rattle.std.specs.Prelude.{◌≡◌, ℕ, ◌≤◌, List, All, Err, map};
ghost use Rattle.std.specs.String.{string_bytes};
ghost use Rattle.sdg_keep.specs.Endings.{Reads, told, file_asked, ending_of, ending_at};
ghost use Rattle.sdg_keep.specs.declared.asked.FilesError.TheVariants as error;

use crate::files::Files;
use crate::whole::{ReadError, read_whole};
use sdg_base::Bytes;
use sqlite_items::Items;
use std::alloc::{AllocError, Global};
use thiserror::Error;

/// A file by its name, and the most bytes that it may have.
#[derive(Drop)]
pub struct Asked {
    pub name: String,
    pub limit: u64,
}

/// Why files were not all read: a read of the file of this name failed, it has more bytes than its
/// limit, or there was no memory for them.
#[derive(Debug, Drop, Error)]
pub enum FilesError {
    #[error("cannot read: {0}")]
    Failed(String),
    #[error("too long: {0}")]
    TooLong(String),
    #[error("out of memory")]
    Memory,
}

impl From<AllocError> for FilesError {
    ghost from_gives = { λ _ e. e ≡ error.Memory };

    fn from(_fault: AllocError) -> FilesError {
        FilesError::Memory
    }
}

impl FilesError {
    /// The error of the files, of which this one was not read.
    fn of_file(error: ReadError, name: String) -> FilesError
        ensures { ending_of (Err result) ≡ ending_at error (string_bytes name) }
    {
        match error {
            ReadError::Failed => FilesError::Failed(name),
            ReadError::TooLong => FilesError::TooLong(name),
            ReadError::Memory => FilesError::Memory,
        }
    }
}

/// Reads files in their order, each from its start to its end, and the next one once the one before
/// it was read. Each limit is at most 2^24. It stops at the first file that cannot be read, or that
/// has more bytes than its limit.
pub fn read_files<F: Files>(
    alloc: Global,
    files: &mut F,
    asked: &[Asked],
) -> Result<Items<Bytes>, FilesError>
    requires { All (λ file. file.limit ≤ 16777216) asked.now }

    ensures reads { Reads (told F.content F.faults F.reads files.old files.new) (map file_asked asked.now) (ending_of result) }
    ensures same { (other : List ℕ) → F.content files.new other ≡ F.content files.old other }
    ensures falls { F.faults files.old ≤ F.faults files.new }
{
    let mut texts = Items::new(alloc);
    for file in asked {
        let name = String::from_str(alloc, file.name.as_str())?;
        match read_whole(alloc, files, &file.name, file.limit) {
            Ok(text) => texts.push(text)?,
            Err(error) => return Err(FilesError::of_file(error, name)),
        }
    }
    Ok(texts)
}
