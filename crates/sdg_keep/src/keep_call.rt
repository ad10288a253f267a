//! The record of calls of stable storage.

use sdg_base::{Bytes, Line, Name, Note, Notes};
use sqlite_items::Items;

/// A call that was answered, with what it was asked: whether it was done, or what it gave, `None`
/// where it failed.
#[derive(Debug, Drop)]
pub enum KeepCall {
    Clear {
        stores: u8,
        done: bool,
    },
    Put {
        store: u8,
        name: Name,
        bytes: Bytes,
        done: bool,
    },
    Sync {
        store: u8,
        done: bool,
    },
    Append {
        line: Line,
        note: Note,
        done: bool,
    },
    Get {
        store: u8,
        name: Name,
        gave: Option<Option<Bytes>>,
    },
    Notes {
        line: Line,
        from: u64,
        gave: Option<Notes>,
    },
}

/// Calls in their order.
pub type KeepCalls = Items<KeepCall>;
