//! Which steps are legal.

ghost use Rattle.std.specs.Prelude.{◌≡◌, Bool, List, MatchOption, is_some, map, slice_get};
ghost use Rattle.std.specs.List.{list_all, list_any};
ghost use Rattle.access_blocks.specs.Source as source;
ghost use Rattle.source_run.specs.Seen.{refusal_of, state_of};

use crate::call_state::CallState;
use crate::moves::width_of;
use crate::numbers::nth;
use body_run::FieldState;
use sdg_base::{Outcome, Step, Val};

/// How many instances a partial field may have at most.
const MOST_INSTANCES: usize = 64;

/// Why a step is not legal.
#[derive(Clone, Copy)]
pub(crate) enum Refusal {
    Unknown,
    NoInstance,
    NotNext(u32),
}

/// Whether some partial field has an instance.
fn has_some_field(fields: &[FieldState], instance: u8) -> bool
    ensures { result ≡ list_any (source.has_instance instance) fields.now }
{
    for field in fields {
        if has_instance(field, instance) {
            return true;
        }
    }
    false
}

/// Whether a partial field has an instance.
fn has_instance(field: &FieldState, instance: u8) -> bool
    ensures { result ≡ source.has_instance instance field.now }
{
    usize::from(instance) < field.width()
}

/// Whether some partial field has an instance; none is asked for where a block has a key.
fn is_there(fields: &[FieldState], instance: Option<u8>) -> bool
    ensures { result ≡ source.is_there instance fields.now }
{
    match instance {
        None => true,
        Some(instance) => has_some_field(fields, instance),
    }
}

/// Whether a block is run so: one with a key whole, and another on an instance of its field.
fn fits_block(key: &Option<Val>, instance: Option<u8>, width: usize) -> bool
    ensures { result ≡ source.fits_block key.now instance width }
{
    match (key, instance) {
        (Some(_), None) => true,
        (None, Some(instance)) => usize::from(instance) < width,
        _ => false,
    }
}

/// Whether a block is the next of a call that stands so.
fn is_next_block(fields: &[FieldState], instance: Option<u8>, state: &CallState<'_>) -> bool
    ensures { (calls : List source.CallState) → result ≡ source.is_next_block (record { fields = fields.now; calls = calls }) instance (state_of state.now) }
{
    match state {
        CallState::At { field, key, .. } => {
            let width = width_of(fields, *field);
            fits_block(key, instance, width)
        }
        CallState::Fresh | CallState::Visiting { .. } | CallState::Ended(_) => false,
    }
}

/// Whether a part is there and not made.
fn is_unmade(parts: &[Option<Outcome>], instance: u8) -> bool
    ensures { result ≡ source.is_unmade (slice_get parts.now instance) }
{
    match parts.get(usize::from(instance)) {
        Some(None) => true,
        _ => false,
    }
}

/// Whether a visit of an instance is the next of a call that stands so. Each instance is visited once.
fn is_next_visit(instance: u8, state: &CallState<'_>) -> bool
    ensures { result ≡ source.is_next_visit instance (state_of state.now) }
{
    match state {
        CallState::Visiting { parts, .. } => is_unmade(parts.as_slice(), instance),
        CallState::Fresh | CallState::At { .. } | CallState::Ended(_) => false,
    }
}

/// Whether each part is made.
fn are_made(parts: &[Option<Outcome>]) -> bool
    ensures { result ≡ list_all is_some parts.now }
{
    for part in parts {
        if part.is_none() {
            return false;
        }
    }
    true
}

/// Whether a join is the next of a call that stands so.
fn is_next_join(state: &CallState<'_>) -> bool
    ensures { result ≡ source.is_next_join (state_of state.now) }
{
    match state {
        CallState::Visiting { parts, .. } => are_made(parts.as_slice()),
        CallState::Fresh | CallState::At { .. } | CallState::Ended(_) => false,
    }
}

/// Whether a call has not begun.
fn is_fresh(state: &CallState<'_>) -> bool
    ensures { result ≡ source.is_fresh (state_of state.now) }
{
    match state {
        CallState::Fresh => true,
        CallState::At { .. } | CallState::Visiting { .. } | CallState::Ended(_) => false,
    }
}

/// Why a call's step is not legal, where the instance is there or not.
fn refused(call: u32, there: bool, is_next: bool) -> Option<Refusal>
    ensures { (f : source.CallState → Bool) (state : source.CallState) → f state ≡ is_next → refusal_of result ≡ source.refused call there f (Some state) }
{
    if !there {
        return Some(Refusal::NoInstance);
    }
    if is_next {
        None
    } else {
        Some(Refusal::NotNext(call))
    }
}

/// Why a field that is there does not grow: it is not partial, or it has as many instances as any may have.
fn growth_refused(field: &FieldState) -> Option<Refusal>
    ensures { refusal_of result ≡ source.growth_refused (Some field.now) }
{
    let width = field.width();
    // A partitioned field has no instances, and yet a part.
    if width == 0 && field.part(0).is_some() {
        return Some(Refusal::Unknown);
    }
    if width < MOST_INSTANCES {
        None
    } else {
        Some(Refusal::NoInstance)
    }
}

/// Why the field of a number does not grow.
fn grow_refused(fields: &[FieldState], field: u16) -> Option<Refusal>
    ensures { refusal_of result ≡ source.growth_refused (slice_get fields.now field) }
{
    match fields.get(usize::from(field)) {
        None => Some(Refusal::Unknown),
        Some(field) => growth_refused(field),
    }
}

/// Where the call of a number stands.
#[tactic(auto, using(crate::proofs::Counting::nth_mapped))]
fn call_at<'c, 'a>(calls: &'c [CallState<'a>], call: u32) -> Option<&'c CallState<'a>>
    ensures { MatchOption result (source.nth (map state_of calls.now) call ≡ None) (λ state. source.nth (map state_of calls.now) call ≡ Some (state_of state.now)) }
{
    nth(calls, call)
}

/// Why a call does not begin.
fn begin_refused(fields: &[FieldState], calls: &[CallState<'_>], call: u32) -> Option<Refusal>
    ensures { refusal_of result ≡ source.refusal (record { fields = fields.now; calls = map state_of calls.now }) (Step.Begin call) }
{
    match call_at(calls, call) {
        None => Some(Refusal::Unknown),
        Some(state) => {
            let is_next = is_fresh(state);
            refused(call, true, is_next)
        }
    }
}

/// Why a block is not run.
fn block_refused(
    fields: &[FieldState],
    calls: &[CallState<'_>],
    call: u32,
    instance: Option<u8>,
) -> Option<Refusal>
    ensures { refusal_of result ≡ source.refusal (record { fields = fields.now; calls = map state_of calls.now }) (Step.Block call instance) }
{
    match call_at(calls, call) {
        None => Some(Refusal::Unknown),
        Some(state) => {
            let there = is_there(fields, instance);
            let is_next = is_next_block(fields, instance, state);
            refused(call, there, is_next)
        }
    }
}

/// Why an instance is not visited.
fn visit_refused(
    fields: &[FieldState],
    calls: &[CallState<'_>],
    call: u32,
    instance: u8,
) -> Option<Refusal>
    ensures { refusal_of result ≡ source.refusal (record { fields = fields.now; calls = map state_of calls.now }) (Step.Visit call instance) }
{
    match call_at(calls, call) {
        None => Some(Refusal::Unknown),
        Some(state) => {
            let there = has_some_field(fields, instance);
            let is_next = is_next_visit(instance, state);
            refused(call, there, is_next)
        }
    }
}

/// Why parts are not joined.
fn join_refused(fields: &[FieldState], calls: &[CallState<'_>], call: u32) -> Option<Refusal>
    ensures { refusal_of result ≡ source.refusal (record { fields = fields.now; calls = map state_of calls.now }) (Step.Join call) }
{
    match call_at(calls, call) {
        None => Some(Refusal::Unknown),
        Some(state) => {
            let is_next = is_next_join(state);
            refused(call, true, is_next)
        }
    }
}

/// Why a step is not legal, as fields and calls stand.
pub(crate) fn refusal_of_step(
    fields: &[FieldState],
    calls: &[CallState<'_>],
    step: Step,
) -> Option<Refusal>
    ensures { refusal_of result ≡ source.refusal (record { fields = fields.now; calls = map state_of calls.now }) step }
{
    match step {
        Step::Begin { call } => begin_refused(fields, calls, call),
        Step::Block { call, instance } => block_refused(fields, calls, call, instance),
        Step::Visit { call, instance } => visit_refused(fields, calls, call, instance),
        Step::Join { call } => join_refused(fields, calls, call),
        Step::Grow { field } => grow_refused(fields, field),
    }
}
