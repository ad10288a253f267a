//! A call begins.

ghost use Rattle.std.specs.Prelude.{◌≡◌, IfOk, slice_get};
ghost use Rattle.std.specs.Option.{option_copied};
ghost use Rattle.access_blocks.specs.Source as source;
ghost use Rattle.source_run.specs.Seen.{started_of};

use crate::call_state::CallState;
use crate::frames::{Frame, Frames};
use crate::numbers::nth;
use crate::started::Started;
use access_blocks::{Body, Program};
use body_run::{FieldState, Machine};
use sdg_base::{Call, Calls, TURNS_AT_START, Val, copy_of};
use sqlite_items::{Items, at};
use std::alloc::{AllocError, Global};

/// The values again.
///
/// # Errors
/// For want of memory.
fn copied(alloc: Global, values: &[Val]) -> Result<Vec<Val>, AllocError>
    ensures { IfOk result (λ copy. copy.items ≡ values.now) }
{
    let mut copy = Vec::new(alloc);
    for value in values {
        copy.push(copy_of(alloc, value)?)?;
    }
    Ok(copy)
}

/// The start of a body on arguments, where there is one.
///
/// # Errors
/// For want of memory.
fn begun_in<'a>(
    alloc: Global,
    body: Option<&'a Body>,
    args: &[Val],
    fields: Vec<FieldState>,
) -> Result<Started<'a>, AllocError>
    ensures { (now : source.Source) → now.fields ≡ fields.items → IfOk result (λ started. started_of started ≡ source.begun_in now args.now (option_copied body.entry)) }
{
    match body {
        None => Ok(Started::Stays(CallState::Fresh, fields)),
        Some(body) => {
            let mut frames = Frames::new(alloc);
            frames.push(Frame::Then(body.statements.as_slice()))?;
            let args = copied(alloc, args)?;
            let machine = Machine::start(
                alloc,
                body,
                args,
                Items::new(alloc),
                TURNS_AT_START,
                fields,
            )?;
            Ok(Started::Goes(frames, machine))
        }
    }
}

/// What the beginning of a call starts.
///
/// # Errors
/// For want of memory.
pub(crate) fn begun<'a>(
    alloc: Global,
    program: &'a Program,
    calls: &Calls,
    call: u32,
    fields: Vec<FieldState>,
) -> Result<Started<'a>, AllocError>
    ensures { (now : source.Source) → now.fields ≡ fields.items → IfOk result (λ started. started_of started ≡ source.begun program.now now (source.nth calls.now call)) }
{
    match nth(calls.as_slice(), call) {
        None => Ok(Started::Stays(CallState::Fresh, fields)),
        Some(call) => {
            let body = at(program.methods.as_slice(), usize::from(call.method));
            begun_in(alloc, body, call.args.as_slice(), fields)
        }
    }
}
