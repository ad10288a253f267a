//! Where a call stands.

use crate::frames::Frames;
use access_blocks::Statement;
use sdg_base::{Outcome, Val, Vals};
use state_classes::Method;

/// What a call holds while it rests: what is left of its body, its variables by number, and the turns that are left.
#[derive(Drop)]
pub(crate) struct Standing<'a> {
    pub frames: Frames<'a>,
    pub variables: Vec<Val>,
    pub turns: u32,
}

/// Where a call stands between two steps.
#[derive(Drop)]
pub(crate) enum CallState<'a> {
    Fresh,
    /// At the mark of a block on a field, with its key where it has one.
    At {
        field: usize,
        key: Option<Val>,
        block: &'a Statement,
        standing: Standing<'a>,
    },
    /// At an access to each instance of a field that was there as the call came, with the outcomes so far.
    Visiting {
        field: usize,
        method: Method,
        args: Vals,
        parts: Vec<Option<Outcome>>,
        standing: Standing<'a>,
    },
    Ended(Outcome),
}

/// Why a call rests: at the mark of a block, at an access to each of so many instances, or since it has ended.
#[derive(Drop)]
pub(crate) enum Pause<'a> {
    Block {
        field: usize,
        key: Option<Val>,
        block: &'a Statement,
    },
    Gather {
        field: usize,
        method: Method,
        args: Vals,
        width: usize,
    },
    End(Outcome),
}
