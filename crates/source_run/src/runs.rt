//! A call runs until it rests.

ghost use Rattle.std.specs.Prelude.{◌≡◌, IfOk, replicate, None};
ghost use Rattle.access_blocks.specs.Calls.{calls_of};
ghost use Rattle.access_blocks.specs.Source.{Runs, standing};
ghost use Rattle.body_run.specs.Seen.{machine_of};
ghost use Rattle.source_run.specs.Seen.{frames_of, paused, standing_of, state_of};

use crate::call_state::{CallState, Pause, Standing};
use crate::frames::Frames;
use crate::moves::make_move;
use access_blocks::Body;
use body_run::{FieldState, Machine, Stop};
use sdg_base::Outcome;
use std::alloc::{AllocError, Global};

/// A call that rests, and the fields as it left them.
#[derive(Drop)]
pub(crate) struct Rest<'a> {
    pub state: CallState<'a>,
    pub fields: Vec<FieldState>,
}

/// So many parts of an access to each instance, of which none is made.
fn unmade(alloc: Global, width: usize) -> Result<Vec<Option<Outcome>>, AllocError>
    ensures { IfOk result (λ parts. parts.items ≡ replicate width None) }
{
    let mut parts = Vec::new(alloc);
    for _part in 0..width {
        parts.push(None)?;
    }
    Ok(parts)
}

/// Where a call stands that rests.
///
/// # Errors
/// For want of memory.
fn resting<'a>(
    alloc: Global,
    pause: Pause<'a>,
    standing: Standing<'a>,
) -> Result<CallState<'a>, AllocError>
    ensures { IfOk result (λ state. state_of state ≡ paused pause.entry (standing_of standing.entry)) }
{
    match pause {
        Pause::Block { field, key, block } => Ok(CallState::At {
            field,
            key,
            block,
            standing,
        }),
        Pause::Gather {
            field,
            method,
            args,
            width,
        } => Ok(CallState::Visiting {
            field,
            method,
            args,
            parts: unmade(alloc, width)?,
            standing,
        }),
        Pause::End(outcome) => Ok(CallState::Ended(outcome)),
    }
}

/// The rest of a call that pauses in these frames and this machine.
///
/// # Errors
/// For want of memory.
fn rested<'a>(
    alloc: Global,
    pause: Pause<'a>,
    frames: Frames<'a>,
    machine: Machine,
) -> Result<Rest<'a>, AllocError>
    ensures state { IfOk result (λ rest. state_of rest.state ≡ paused pause.entry (standing (frames_of frames.entry) (machine_of machine) machine.turns)) }
    ensures fields { IfOk result (λ rest. rest.fields.items ≡ machine.fields.items) }
{
    let Machine {
        variables,
        turns,
        fields,
        ..
    } = machine;
    let standing = Standing {
        frames,
        variables,
        turns,
    };
    Ok(Rest {
        state: resting(alloc, pause, standing)?,
        fields,
    })
}

/// Runs a call until it rests. No run makes 2^64 moves.
///
/// # Errors
/// For want of memory.
pub(crate) fn run_on<'a>(
    alloc: Global,
    methods: &[Body],
    frames: Frames<'a>,
    machine: Machine,
) -> Result<Rest<'a>, AllocError>
    ensures { IfOk result (λ rest. Runs (calls_of methods.now) (frames_of frames.entry) (machine_of machine) (state_of rest.state) rest.fields.items) }
{
    let mut frames = frames;
    let mut machine = machine;
    for _step in 0..u64::MAX {
        match make_move(alloc, methods, &mut frames, &mut machine) {
            Ok(None) => {}
            Ok(Some(pause)) => return rested(alloc, pause, frames, machine),
            Err(Stop::Halt(halt)) => {
                return Ok(Rest {
                    state: CallState::Ended(halt.outcome()),
                    fields: machine.fields,
                });
            }
            Err(Stop::Memory) => return Err(AllocError),
        }
    }
    Err(AllocError)
}
