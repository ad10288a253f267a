//! Real files and standard output. They tell no content: what the system keeps, no clause can say. The
//! files tell which reads were made.

ghost use Rattle.std.specs.Prelude.{◌≡◌, ◌≤◌, [], None, Some, IfOk, length};

use sdg_base::KeepError;
use sdg_keep::{Files, ReadCall, Sink, note_read};
use sqlite_items::Items;
use std::alloc::Global;
use std::fs::File;
use std::io::{Read, Seek, SeekFrom, Write};
use std::{fs, io};

/// A file that is read onward, with the number of its next byte.
#[derive(Drop)]
struct Opened {
    name: String,
    file: File,
    at: u64,
}

/// The files of the system. A file stays open from one read to the next, so that a pipe can be read.
#[derive(Drop)]
pub struct RealFiles<'a> {
    rt: &'a HostRuntime,
    alloc: Global,
    opened: Option<Opened>,
    faults: u64,
    /// The reads so far. A read fills its buffer unless the file ends, so there are few of them,
    /// however little a pipe gives at a time.
    reads: Items<ReadCall>,
}

impl<'a> RealFiles<'a> {
    /// No file is open yet, and there was no read.
    pub fn new(rt: &'a HostRuntime, alloc: Global) -> RealFiles<'a>
        ensures { (result.faults ≡ 0) × (result.reads ≡ []) }
    {
        RealFiles {
            rt,
            alloc,
            opened: None,
            faults: 0,
            reads: Items::new(alloc),
        }
    }

    /// The file of this name at this byte: the one that is open where it stands there, or anew.
    fn opened_at(&mut self, name: &String, from: u64) -> io::Result<Opened>
        ensures { (self.new.faults ≡ self.old.faults) × (self.new.reads ≡ self.old.reads) }
    {
        if let Some(opened) = self.opened.take() {
            if opened.at == from && opened.name == *name {
                return Ok(opened);
            }
        }
        let mut file = fs::open(self.rt, name.as_str())?;
        if from > 0 {
            file.seek(SeekFrom::Start(from))?;
        }
        Ok(Opened {
            name: String::from_str(self.alloc, name.as_str())?,
            file,
            at: from,
        })
    }

    /// Reads until the buffer is full or the file ends, and keeps the file open.
    fn read_at(&mut self, name: &String, from: u64, into: &mut [u8]) -> io::Result<usize>
        ensures faults { self.new.faults ≡ self.old.faults }
        ensures reads { self.new.reads ≡ self.old.reads }
        ensures count { IfOk result (λ n. n ≤ length into.new) }
    {
        let mut opened = self.opened_at(name, from)?;
        let count = fill(&mut opened.file, into)?;
        opened.at = from.saturating_add(count as u64);
        self.opened = Some(opened);
        Ok(count)
    }
}

impl Files for RealFiles<'_> {
    ghost faults = { λ s. s.faults };

    ghost content = { λ _ _. None };

    ghost reads = { λ s. Some s.reads };

    fn read(&mut self, name: &String, from: u64, into: &mut [u8]) -> Result<usize, KeepError> {
        let gave = match self.read_at(name, from, into) {
            Ok(count) => Some(count),
            Err(error) if is_memory(&error) => return Err(KeepError::Memory),
            Err(_) => None,
        };
        if note_read(self.alloc, &mut self.reads, name, from, into.len(), gave).is_err() {
            return Err(KeepError::Memory);
        }
        match gave {
            Some(count) => Ok(count),
            None => {
                self.faults = self.faults.saturating_add(1);
                Err(KeepError::Failed)
            }
        }
    }
}

/// Reads until the buffer is full or the file ends, and answers how many bytes were read.
fn fill(file: &mut File, into: &mut [u8]) -> io::Result<usize>
    ensures { IfOk result (λ n. n ≤ length into.new) }
{
    let mut done = 0;
    while done < into.len() {
        let count = file.read(into.split_at_mut(done).1)?;
        if count == 0 {
            break;
        }
        done += count;
    }
    Ok(done)
}

/// Standard output.
#[derive(Drop)]
pub struct RealSink<'a> {
    rt: &'a HostRuntime,
    faults: u64,
}

impl<'a> RealSink<'a> {
    /// No write has failed yet.
    pub fn new(rt: &'a HostRuntime) -> RealSink<'a>
        ensures { result.faults ≡ 0 }
    {
        RealSink { rt, faults: 0 }
    }
}

impl Sink for RealSink<'_> {
    ghost faults = { λ s. s.faults };

    ghost written = { λ _. None };

    fn write(&mut self, piece: &[u8]) -> Result<usize, KeepError> {
        match io::writer(self.rt).write(piece) {
            Ok(count) if count > 0 => Ok(count),
            Err(error) if is_memory(&error) => Err(KeepError::Memory),
            _ => {
                self.faults = self.faults.saturating_add(1);
                Err(KeepError::Failed)
            }
        }
    }
}

fn is_memory(error: &io::Error) -> bool {
    error.kind() == io::ErrorKind::OutOfMemory
}
