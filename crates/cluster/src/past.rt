//! What happened in a run, and which results were committed.

use sdg_base::{Line, Note, Outcome, Port, Step};
use sqlite_items::Items;

/// A note of the history, the line that it stands on, and the step that it is printed as, where it
/// is one.
#[derive(Clone, Copy, Debug, PartialEq, Eq)]
pub struct Past {
    pub line: Line,
    pub note: Note,
    pub shown: Option<Step>,
}

/// The history, in the order of the step numbers.
pub type Pasts = Items<Past>;

/// How a call ended. Calls count from 1.
#[derive(Debug, Drop)]
pub struct Ended {
    pub call: u32,
    pub outcome: Outcome,
}

/// A committed result: the port that gave it, its number among the results of that port, from 1, and
/// what it says.
#[derive(Debug, Drop)]
pub struct Committed {
    pub from: Port,
    pub seq: u64,
    pub shown: Ended,
}

/// Committed results, in the order of their commits.
pub type Commits = Items<Committed>;
