//! Words of stable storage, and of the classes that hold state.

use sqlite_items::Items;
use thiserror::Error;

/// Why a call of the outside failed: it failed itself, or there was no memory for it.
#[derive(Clone, Copy, Debug, PartialEq, Eq, Error)]
pub enum KeepError {
    #[error("the call failed")]
    Failed,
    #[error("out of memory")]
    Memory,
}

/// A class that holds state.
#[derive(Clone, Copy, Debug, PartialEq, Eq)]
pub enum ClassName {
    Table,
    Matrix,
    Counter,
}

/// One of the two alternating sets of names under which a cell's image is stored.
#[derive(Clone, Copy, Debug, PartialEq, Eq)]
pub enum Set {
    A,
    B,
}

/// What a store's loss of power does to what was put since its last sync.
#[derive(Clone, Copy, Debug, PartialEq, Eq)]
pub enum Blink {
    Lose,
    Keep,
    Tear,
}

/// By field the number of slots of a partitioned one, or of instances of a partial one.
pub type Widths = Items<u8>;
