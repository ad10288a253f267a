//! A block is run.

ghost use Rattle.std.specs.Prelude.{◌≡◌, IfOk, unwrap_or};
ghost use Rattle.access_blocks.specs.Source as source;
ghost use Rattle.body_run.specs.Seen.{machine_of};
ghost use Rattle.source_run.specs.Seen.{standing_of, started_of, state_of};

use crate::call_state::{CallState, Standing};
use crate::frames::Frame;
use crate::started::Started;
use body_run::{FieldState, Machine};
use sdg_base::{Val, Vals};
use sqlite_items::Items;
use std::alloc::{AllocError, Global};

/// The key of a block, and `Unit` where it has none.
fn key_of(key: Option<Val>) -> Val
    ensures { result ≡ unwrap_or key Val.Unit }
{
    match key {
        Some(key) => key,
        None => Val::Unit,
    }
}

/// The number of an instance, and 0 where there is none.
fn place_of(instance: Option<u8>) -> usize
    ensures { result ≡ unwrap_or instance 0 }
{
    match instance {
        Some(instance) => usize::from(instance),
        None => 0,
    }
}

/// What a block starts, which is run with the key of its mark, or on an instance.
///
/// # Errors
/// For want of memory.
pub(crate) fn block_run<'a>(
    alloc: Global,
    state: CallState<'a>,
    fields: Vec<FieldState>,
    instance: Option<u8>,
) -> Result<Started<'a>, AllocError>
    ensures { (now : source.Source) → now.fields ≡ fields.items → IfOk result (λ started. started_of started ≡ source.block_run now instance (state_of state.entry)) }
{
    match state {
        CallState::At {
            key,
            block,
            standing,
            ..
        } => {
            let Standing {
                mut frames,
                variables,
                turns,
            } = standing;
            frames.push(Frame::One(block))?;
            let machine = Machine {
                variables,
                key: key_of(key),
                gathered: Items::new(alloc),
                turns,
                fields,
                instance: place_of(instance),
            };
            Ok(Started::Goes(frames, machine))
        }
        CallState::Fresh | CallState::Visiting { .. } | CallState::Ended(_) => {
            Ok(Started::Stays(state, fields))
        }
    }
}
