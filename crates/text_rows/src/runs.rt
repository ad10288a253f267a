//! Runs of the program over files in memory.

use crate::texts::bytes_of;
use sdg_base::{Bytes, Name};
use sdg_keep::{Fails, FileList, MemoryFiles, MemorySink};
use sdg_top::java2sdg;
use std::alloc::{AllocError, Global};

/// A file's name and its bytes.
pub(crate) type Named = (String, Vec<u8>);

/// Sets a file, whose name stands before its text.
pub(crate) fn set_file(
    alloc: Global,
    files: &mut Vec<Named>,
    file: &str,
) -> Result<(), AllocError> {
    let (name, text) = file.split_once(' ').unwrap_or((file, ""));
    files.retain(|named| named.0.as_str() != name);
    files.push((String::from_str(alloc, name)?, bytes_of(alloc, text)?))?;
    Ok(())
}

fn list_of(alloc: Global, files: &[Named]) -> Result<FileList, AllocError> {
    let mut list = FileList::new(alloc);
    for (name, bytes) in files {
        let name = Name::from_slice(alloc, name.as_bytes())?;
        list.push((name, Bytes::from_slice(alloc, bytes.as_slice())?))?;
    }
    Ok(list)
}

fn words_of(alloc: Global, line: &str) -> Result<Vec<String>, AllocError> {
    let mut words = Vec::new(alloc);
    for word in line.split_whitespace() {
        words.push(String::from_str(alloc, word)?)?;
    }
    Ok(words)
}

/// Adds bytes with each end of a line as `\n`.
fn add_bytes(line: &mut String, bytes: &[u8]) -> Result<(), AllocError> {
    for byte in bytes {
        if *byte == b'\n' {
            line.push_str("\\n")?;
        } else {
            line.push(char::from(*byte))?;
        }
    }
    Ok(())
}

/// What stands in the last line.
fn last_line(bytes: &[u8]) -> &[u8] {
    let lines = bytes.strip_suffix(b"\n").unwrap_or(bytes);
    lines.rsplit(|byte| *byte == b'\n').next().unwrap_or(lines)
}

/// What these words write.
pub(crate) fn written(alloc: Global, files: &[Named], words: &str) -> Result<String, AllocError> {
    let mut memory = MemoryFiles::new(alloc, list_of(alloc, files)?, Fails::new(alloc));
    let mut out = MemorySink::new(alloc, Fails::new(alloc));
    java2sdg(alloc, &words_of(alloc, words)?, &mut memory, &mut out);
    String::from_utf8_lossy(alloc, out.written.as_slice())
}

/// The status with which these words end, and all that is written, or the last line of it.
pub(crate) fn run(
    alloc: Global,
    files: &[Named],
    words: &str,
    is_whole: bool,
) -> Result<String, AllocError> {
    let mut memory = MemoryFiles::new(alloc, list_of(alloc, files)?, Fails::new(alloc));
    let mut out = MemorySink::new(alloc, Fails::new(alloc));
    let status = java2sdg(alloc, &words_of(alloc, words)?, &mut memory, &mut out);
    let mut line = format!(in alloc; "{} ", status.code())?;
    let written = out.written.as_slice();
    add_bytes(
        &mut line,
        if is_whole {
            written
        } else {
            last_line(written)
        },
    )?;
    Ok(line)
}
