//! What an instruction does, and how a run of code ends.

use sdg_base::{Outcome, Val, Vals};
use state_classes::Method;

/// How a run of code ends: with the method's value, with the call's outcome, at a cut, or as a part of
/// a visit.
pub enum Ending {
    Returned(Val),
    Stopped(Outcome),
    CutTo(u32),
    PartFor(u32, Val),
}

/// What an instruction leads to: the one behind it, another one, a call of a method, one on what the
/// parts brought, an access to the state, or the end of the run.
pub enum Step {
    Next,
    Jump(u32),
    Call(u16, Vec<Val>),
    Merge(u16),
    Access(Method, Vals),
    End(Ending),
}

/// What an instruction did, once the methods that it calls have run: it went on, is to access the
/// state, or ended the run.
pub enum Move {
    Go,
    Access(Method, Vals),
    End(Ending),
}

/// What a call of a method gave: a value, or how the whole call ends, with the turns that are left.
pub enum Called {
    Gave(Val, u32),
    Failed(Outcome, u32),
}
