//! Why a step was not made.

ghost use Rattle.std.specs.Prelude.{◌≡◌};
ghost use Rattle.source_run.specs.declared.step_error.StepError.TheVariants.{Memory};

use std::alloc::AllocError;
use thiserror::Error;

/// Why a step was not made.
#[derive(Clone, Copy, Debug, PartialEq, Eq, Error)]
pub enum StepError {
    /// There is no such call, or no such partial field.
    #[error("there is no such call or partial field")]
    Unknown,
    /// No partial field has the instance, or the field has as many as it may have.
    #[error("there is no such instance")]
    NoInstance,
    /// The step is not the next of the call.
    #[error("the step is not the next of call {call}")]
    NotNext { call: u32 },
    /// There was no memory for the step.
    #[error("there was no memory for the step")]
    Memory,
}

impl From<AllocError> for StepError {
    ghost from_gives = { λ _ e. e ≡ Memory };

    fn from(_error: AllocError) -> StepError {
        StepError::Memory
    }
}
