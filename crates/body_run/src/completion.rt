//! How statements complete (JLS 14.1).

ghost use Rattle.std.specs.Prelude.{◌≡◌};
ghost use Rattle.access_blocks.specs.Calls.{outcome_by};
ghost use Rattle.body_run.specs.Seen.{completion_of};

use access_blocks::Halt;
use sdg_base::{Outcome, Val};

/// How a statement completes (JLS 14.1). A call may also end in it at once.
#[derive(Debug, Drop)]
pub enum Completion {
    Normal,
    Breaks,
    Continues,
    Returns(Val),
    Halts(Halt),
}

impl Completion {
    /// How a call has ended whose body has completed; a void body may complete normally.
    pub fn outcome(self) -> Outcome
        ensures { result ≡ outcome_by (completion_of self) }
    {
        match self {
            Completion::Returns(value) => Outcome::Value(value),
            Completion::Halts(halt) => halt.outcome(),
            Completion::Normal | Completion::Breaks | Completion::Continues => {
                Outcome::Value(Val::Unit)
            }
        }
    }
}
