//! A step is made, and how its call ended is told.

ghost use Rattle.std.specs.Prelude.{◌≡◌, ◌++◌, IfErr, OnOk};
ghost use Rattle.access_blocks.specs.Source.{Source as SourceOf, outcome_of_call};
ghost use Rattle.source_run.specs.Sources.{given_to, program_of, source_of};
ghost use Rattle.history_run.specs.Stepping as stepping;
ghost use Rattle.history_run.specs.Made.{IsMade, IsNotMade};

use crate::replayed::Results;
use sdg_base::{Step, copy_outcome};
use source_run::{Source, StepError};
use std::alloc::{AllocError, Global};

/// The call of a step. A growth has none.
fn call_of(step: Step) -> Option<u32>
    ensures { result ≡ stepping.call_of step }
{
    match step {
        Step::Begin { call }
        | Step::Block { call, .. }
        | Step::Visit { call, .. }
        | Step::Join { call } => Some(call),
        Step::Grow { .. } => None,
    }
}

/// Tells how the call of a number ended, where it has.
///
/// # Errors
/// For want of memory.
fn tell_call(
    alloc: Global,
    source: &Source<'_>,
    call: u32,
    results: &mut Results,
) -> Result<(), AllocError>
    ensures { (now : SourceOf) → source_of source.now ≡ Some now → OnOk result (results.new ≡ results.old ++ stepping.result_of call (outcome_of_call now call)) }
{
    match source.outcome(call) {
        None => {}
        Some(outcome) => {
            let outcome = copy_outcome(alloc, outcome)?;
            results.push((call, outcome))?;
        }
    }
    Ok(())
}

/// Tells how the call of a step ended, where it has.
///
/// # Errors
/// For want of memory.
fn tell(
    alloc: Global,
    source: &Source<'_>,
    step: Step,
    results: &mut Results,
) -> Result<(), AllocError>
    ensures { (now : SourceOf) → source_of source.now ≡ Some now → OnOk result (results.new ≡ results.old ++ stepping.ended_by step now) }
{
    match call_of(step) {
        None => Ok(()),
        Some(call) => tell_call(alloc, source, call, results),
    }
}

/// Makes a step, and tells how its call ended where it has.
///
/// # Errors
/// Where the step is not legal, and for want of memory.
pub(crate) fn make(
    alloc: Global,
    source: &mut Source<'_>,
    step: Step,
    results: &mut Results,
) -> Result<(), StepError>
    ensures made { (now : SourceOf) → source_of source.old ≡ Some now → OnOk result (IsMade (program_of source.old) (given_to source.old) now step results.old (source_of source.new) results.new) }
    ensures refused { (now : SourceOf) → source_of source.old ≡ Some now → IfErr result (IsNotMade now step) }
    ensures program { program_of source.new ≡ program_of source.old }
    ensures given { given_to source.new ≡ given_to source.old }
{
    source.step(alloc, step)?;
    tell(alloc, source, step, results)?;
    Ok(())
}
