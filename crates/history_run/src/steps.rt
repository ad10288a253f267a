//! The steps of a history are made one after the other.

ghost use Rattle.std.specs.Prelude.{◌≡◌, length, slice_get, IfOk, IfErr};
ghost use Rattle.history_run.specs.Made.{IsIllegal, IsStepped, error_of};

use crate::making::make;
use crate::replayed::Replayed;
use access_blocks::Program;
use run_text::{History, TextError};
use sdg_base::Calls;
use source_run::{Source, StepError};
use sqlite_items::Items;
use std::alloc::Global;

/// The number of the rule that each step of a history is its call's next. The rules below it are of texts, and this one is of
/// runs.
pub const ILLEGAL: u8 = 6;

/// The error of a step on the line of a number that was not made.
fn error_at(error: StepError, line: u32) -> TextError
    ensures { result ≡ error_of error line }
{
    match error {
        StepError::Memory => TextError::Memory,
        StepError::Unknown | StepError::NoInstance | StepError::NotNext { .. } => {
            TextError::Bad {
                line,
                rule: ILLEGAL,
            }
        }
    }
}

/// Makes the steps of a history, and answers what it gives.
///
/// # Errors
/// At the line of the first step that is not legal, and for want of memory.
pub(crate) fn stepped(
    alloc: Global,
    program: &Program,
    calls: &Calls,
    history: &History,
) -> Result<Replayed, TextError>
    requires numbered { length history.now.lines ≡ length history.now.steps }
    ensures legal { IfOk result (IsStepped program.now calls.now history.now) }
    ensures illegal { IfErr result (IsIllegal program.now calls.now history.now) }
{
    let mut source = Source::new(alloc, program, calls, history.width)?;
    let mut results = Items::new(alloc);
    let steps = history.steps.as_slice();
    let lines = history.lines.as_slice();
    for place in 0..steps.len() {
        match make(alloc, &mut source, steps[place], &mut results) {
            Ok(()) => {}
            Err(error) => return Err(error_at(error, lines[place])),
        }
    }
    Ok(Replayed {
        results,
        steps: steps.len(),
    })
}
