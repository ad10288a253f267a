//! How far a channel was taken.

use sdg_base::Port;

/// The port that sends, and how many items were taken from it, in their order without a gap.
#[derive(Clone, Copy, Debug, PartialEq, Eq)]
pub struct Mark {
    pub from: Port,
    pub taken: u64,
}
