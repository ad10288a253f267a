//! How a call ends before its body does.

ghost use Rattle.std.specs.Prelude.{◌≡◌};
ghost use Rattle.access_blocks.specs.Expressions.{outcome_of};

use sdg_base::{Exn, Outcome};

/// Why a call ends where it stands: by an exception, for want of a turn, or by a vector that would be longer than any may
/// be.
#[derive(Clone, Copy, Debug, PartialEq, Eq)]
pub enum Halt {
    Threw(Exn),
    OutOfTurns,
    TooLong,
}

impl Halt {
    /// The outcome of the call.
    pub fn outcome(self) -> Outcome
        ensures { result ≡ outcome_of self }
    {
        match self {
            Halt::Threw(exception) => Outcome::Throws(exception),
            Halt::OutOfTurns | Halt::TooLong => Outcome::Limit,
        }
    }
}
