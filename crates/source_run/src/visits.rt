//! An instance is visited.

ghost use Rattle.std.specs.Prelude.{◌≡◌, IfOk, Option, List, slice_get};
ghost use Rattle.sdg_base.specs.declared.val.Outcome.{Outcome};
ghost use Rattle.access_blocks.specs.Source as source;
ghost use Rattle.access_blocks.specs.Statements.{part_of};
ghost use Rattle.source_run.specs.Seen.{started_of, state_of};
ghost use Rattle.source_run.specs.Visiting.{with_answer};

use crate::call_state::CallState;
use crate::started::Started;
use body_run::FieldState;
use sdg_base::{Outcome, Vals};
use state_classes::Method;
use std::alloc::{AllocError, Global};

/// Calls a method on one part of a field; `None` where there is no such part.
///
/// # Errors
/// For want of memory.
fn visit_part(
    alloc: Global,
    fields: &mut Vec<FieldState>,
    field: usize,
    instance: usize,
    method: Method,
    args: &Vals,
) -> Result<Option<Outcome>, AllocError>
    ensures { (parts : List (Option Outcome)) (at : source.Standing) → IfOk result (λ answer.
        source.visited_part field method args.now parts at instance (slice_get fields.old.items field) fields.old.items (part_of (slice_get fields.old.items field) instance)
        ≡ source.Stays (source.Visiting field method args.now (with_answer parts instance answer) at) fields.new.items) }
{
    if field < fields.len() {
        fields[field].call(alloc, instance, method, args)
    } else {
        Ok(None)
    }
}

/// Keeps what an instance answered, where it answered.
fn set_part(parts: &mut Vec<Option<Outcome>>, instance: u8, answer: Option<Outcome>)
    ensures { parts.new.items ≡ with_answer parts.old.items instance answer }
{
    if usize::from(instance) < parts.len() && answer.is_some() {
        parts[usize::from(instance)] = answer;
    }
}

/// What a visit makes: one instance answers, and changes by itself.
///
/// # Errors
/// For want of memory.
pub(crate) fn visit_run<'a>(
    alloc: Global,
    state: CallState<'a>,
    fields: Vec<FieldState>,
    instance: u8,
) -> Result<Started<'a>, AllocError>
    ensures { (now : source.Source) → now.fields ≡ fields.items → IfOk result (λ started. started_of started ≡ source.visit_run now instance (state_of state.entry)) }
{
    match state {
        CallState::Visiting {
            field,
            method,
            args,
            mut parts,
            standing,
        } => {
            let mut fields = fields;
            let place = usize::from(instance);
            let answer = visit_part(alloc, &mut fields, field, place, method, &args)?;
            set_part(&mut parts, instance, answer);
            let state = CallState::Visiting {
                field,
                method,
                args,
                parts,
                standing,
            };
            Ok(Started::Stays(state, fields))
        }
        CallState::Fresh | CallState::At { .. } | CallState::Ended(_) => {
            Ok(Started::Stays(state, fields))
        }
    }
}
