//! Files read whole, and bytes written whole.

ghost use Rattle.std.specs.Prelude.{◌≡◌, ℕ, ◌+◌, ◌<◌, ◌≤◌, List, length, vec_len, Ok, Err, IfOk, OnOk, IfSome};
ghost use Rattle.std.specs.String.{string_bytes};
ghost use Rattle.sdg_keep.specs.Faults.{HasCause};
ghost use Rattle.sdg_keep.specs.Readings.{ReadsOn, ReadsWhole};
ghost use Rattle.sdg_keep.specs.Wholes.{fault_of, IsPrefixOf};
ghost use Rattle.sdg_keep.specs.Writes.{WritesWhole};
ghost use Rattle.sdg_base.specs.declared.store.KeepError.TheVariants as keep;
ghost use Rattle.sdg_keep.specs.declared.whole.ReadError.TheVariants as read;

use crate::files::Files;
use crate::sink::Sink;
use sdg_base::{Bytes, KeepError};
use std::alloc::{AllocError, Global};
use thiserror::Error;

/// Why a file was not read whole: a read failed, it has more bytes than its limit, or there was no
/// memory for them.
#[derive(Clone, Copy, Debug, PartialEq, Eq, Error)]
pub enum ReadError {
    #[error("a read of the file failed")]
    Failed,
    #[error("the file is too long")]
    TooLong,
    #[error("out of memory")]
    Memory,
}

impl From<KeepError> for ReadError {
    ghost use Rattle.sdg_keep.specs.Wholes.{read_error_of};

    ghost from_gives = { λ fault e. e ≡ read_error_of fault };

    fn from(fault: KeepError) -> ReadError {
        match fault {
            KeepError::Failed => ReadError::Failed,
            KeepError::Memory => ReadError::Memory,
        }
    }
}

impl From<AllocError> for ReadError {
    ghost from_gives = { λ _ e. e ≡ read.Memory };

    fn from(_fault: AllocError) -> ReadError {
        ReadError::Memory
    }
}

/// How many bytes one read asks for at most.
const PIECE: usize = 65536;

/// A buffer of this size.
fn make_buffer(alloc: Global, size: usize) -> Result<Vec<u8>, AllocError>
    ensures { IfOk result (λ buffer. vec_len buffer ≡ size) }
{
    vec![in alloc; 0u8; size]
}

/// Reads the file's bytes that follow those read so far, at most as many as the buffer has room for
/// and never more than one above the limit, and answers how many: 0 at the file's end alone.
fn read_more<F: Files>(
    files: &mut F,
    name: &String,
    limit: u64,
    buffer: &mut [u8],
    bytes: &mut Vec<u8>,
) -> Result<usize, KeepError>
    requires near { limit ≤ 16777216 }
    requires short { vec_len bytes.old ≤ limit }
    requires room { 0 < length buffer.old }

    ensures count { IfOk result (λ n. vec_len bytes.new ≡ vec_len bytes.old + n) }
    ensures limited { OnOk result (vec_len bytes.new ≤ limit + 1) }
    ensures front { OnOk result (
        IsPrefixOf (F.content files.old (string_bytes name.now)) bytes.old.items
        → IsPrefixOf (F.content files.old (string_bytes name.now)) bytes.new.items) }
    ensures ended { result ≡ Ok 0 →
        IfSome (F.content files.old (string_bytes name.now)) (λ file. length file ≤ vec_len bytes.old) }

    ensures same { (other : List ℕ) → F.content files.new other ≡ F.content files.old other }
    ensures cause { HasCause (F.faults files.old) (F.faults files.new) result }
    ensures reads { ReadsOn (F.reads files.old) (F.reads files.new) (string_bytes name.now) limit (vec_len bytes.old) result }
{
    let start = bytes.len();
    let room = buffer.len().min(limit as usize + 1 - start);
    let count = files.read(name, start as u64, buffer.split_at_mut(room).0)?;
    if count == 0 {
        return Ok(0);
    }
    match bytes.extend_from_slice(buffer.split_at(count).0) {
        Ok(()) => Ok(count),
        Err(_) => Err(KeepError::Memory),
    }
}

/// Reads a file from its start to its end. `TooLong` where it has more bytes than the limit, which
/// is at most 2^24; of such a file at most one byte above the limit is asked for.
pub fn read_whole<F: Files>(
    alloc: Global,
    files: &mut F,
    name: &String,
    limit: u64,
) -> Result<Bytes, ReadError>
    requires { limit ≤ 16777216 }

    ensures limited { IfOk result (λ bytes. length bytes ≤ limit) }
    ensures bytes { IfOk result (λ bytes.
        IfSome (F.content files.old (string_bytes name.now)) (λ file. bytes ≡ file)) }
    ensures too_long { result ≡ Err read.TooLong →
        IfSome (F.content files.old (string_bytes name.now)) (λ file. limit < length file) }

    ensures same { (other : List ℕ) → F.content files.new other ≡ F.content files.old other }
    ensures cause { HasCause (F.faults files.old) (F.faults files.new) (fault_of result) }
    ensures reads { ReadsWhole (F.reads files.old) (F.reads files.new) (string_bytes name.now) limit result }
{
    let mut buffer = make_buffer(alloc, PIECE)?;
    let mut bytes = Vec::new(alloc);
    'reading: while bytes.len() as u64 <= limit {
        if read_more(files, name, limit, buffer.as_mut_slice(), &mut bytes)? == 0 {
            return Ok(Bytes::from_vec(bytes));
        }
    }
    Err(ReadError::TooLong)
}

/// Writes all bytes. After an error some first bytes of them may have been written.
pub fn write_whole<S: Sink>(out: &mut S, bytes: &[u8]) -> Result<(), KeepError>
    ensures cause { HasCause (S.faults out.old) (S.faults out.new) result }
    ensures written { WritesWhole (S.written out.old) (S.written out.new) bytes.now result }
{
    let mut done = 0;
    while done < bytes.len() {
        done += out.write(bytes.split_at(done).1)?;
    }
    Ok(())
}
