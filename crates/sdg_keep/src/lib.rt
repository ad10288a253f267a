//! What a program asks of the outside: files to read, a place to write to and stable storage, each
//! with a count of its faults, the forms of them that stand in memory, and the loops that read and
//! write whole.
#![tactic(auto)]

mod asked;
mod change;
mod failing;
mod files;
mod keep;
mod keep_call;
mod memory_files;
mod memory_keep;
mod memory_sink;
mod read_call;
mod sink;
mod sure;
mod sure_keep;
mod whole;

pub use asked::{Asked, FilesError, read_files};
pub use change::{Change, Changes};
pub use failing::Fails;
pub use files::{FileList, Files};
pub use keep::Keep;
pub use keep_call::{KeepCall, KeepCalls};
pub use memory_files::MemoryFiles;
pub use memory_keep::MemoryKeep;
pub use memory_sink::MemorySink;
pub use read_call::{ReadCall, note_read};
pub use sink::Sink;
pub use sure::{SureFiles, SureSink};
pub use sure_keep::SureKeep;
pub use whole::{ReadError, read_whole, write_whole};
