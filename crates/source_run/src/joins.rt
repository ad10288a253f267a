//! The parts of an access to each instance are joined.

ghost use Rattle.std.specs.Prelude.{◌≡◌, IfOk};
ghost use Rattle.std.specs.List.{filter_map};
ghost use Rattle.access_blocks.specs.Source as source;
ghost use Rattle.body_run.specs.Seen.{machine_of};
ghost use Rattle.source_run.specs.Seen.{standing_of, started_of, state_of};

use crate::call_state::{CallState, Standing};
use crate::started::Started;
use body_run::{FieldState, Machine};
use sdg_base::{Outcome, Val, Vals};
use sqlite_items::Items;
use std::alloc::{AllocError, Global};

/// The first outcome by instance that isn't a value.
fn first_failure(parts: &[Option<Outcome>]) -> Option<Outcome>
    ensures { result ≡ source.first_failure parts.now }
{
    for part in parts {
        match part {
            Some(Outcome::Throws(exception)) => return Some(Outcome::Throws(*exception)),
            Some(Outcome::Limit) => return Some(Outcome::Limit),
            Some(Outcome::Value(_)) | None => {}
        }
    }
    None
}

/// A part's value, where its outcome is one.
fn value_in(part: Option<Outcome>) -> Option<Val>
    ensures { result ≡ source.value_in part }
{
    match part {
        Some(Outcome::Value(value)) => Some(value),
        Some(Outcome::Throws(_)) | Some(Outcome::Limit) | None => None,
    }
}

/// The values of parts by instance.
///
/// # Errors
/// For want of memory.
#[tactic(auto, using(crate::proofs::Joining::one_more))]
fn values_in(alloc: Global, parts: Vec<Option<Outcome>>) -> Result<Vals, AllocError>
    ensures { IfOk result (λ values. values ≡ filter_map source.value_in parts.items) }
{
    let mut values = Items::new(alloc);
    for part in parts {
        match value_in(part) {
            Some(value) => values.push(value)?,
            None => {}
        }
    }
    Ok(values)
}

/// What a join starts: where each part is a value the call goes on with them, and else it ends as the first that isn't.
///
/// # Errors
/// For want of memory.
pub(crate) fn join_run<'a>(
    alloc: Global,
    state: CallState<'a>,
    fields: Vec<FieldState>,
) -> Result<Started<'a>, AllocError>
    ensures { (now : source.Source) → now.fields ≡ fields.items → IfOk result (λ started. started_of started ≡ source.join_run now (state_of state.entry)) }
{
    match state {
        CallState::Visiting {
            parts,
            standing,
            ..
        } => {
            match first_failure(parts.as_slice()) {
                Some(failure) => Ok(Started::Stays(CallState::Ended(failure), fields)),
                None => {
                    let Standing {
                        frames,
                        variables,
                        turns,
                    } = standing;
                    let machine = Machine {
                        variables,
                        key: Val::Unit,
                        gathered: values_in(alloc, parts)?,
                        turns,
                        fields,
                        instance: 0,
                    };
                    Ok(Started::Goes(frames, machine))
                }
            }
        }
        CallState::Fresh | CallState::At { .. } | CallState::Ended(_) => {
            Ok(Started::Stays(state, fields))
        }
    }
}
