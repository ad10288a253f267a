//! What legal steps do.

ghost use Rattle.std.specs.Prelude.{◌≡◌, ◌<◌, ℕ, suc, IfOk, MatchOption, OnOk, length, map, slice_get, unwrap_or};
ghost use Rattle.access_blocks.specs.Source as source;
ghost use Rattle.source_run.specs.Calling.{IsNoCall};
ghost use Rattle.source_run.specs.Seen.{started_of, state_of};

use crate::begins::begun;
use crate::blocks::block_run;
use crate::call_state::CallState;
use crate::joins::join_run;
use crate::runs::{Rest, run_on};
use crate::started::Started;
use crate::visits::visit_run;
use access_blocks::Program;
use body_run::FieldState;
use sdg_base::{Calls, ClassName};
use state_classes::AnyState;
use std::alloc::{AllocError, Global};
use std::mem;

/// The place of the call of a number, where they count from 1.
#[tactic(auto, using(crate::proofs::Setting::no_call))]
fn place_in(calls: &[CallState<'_>], call: u32) -> Option<usize>
    ensures { MatchOption result (IsNoCall (map state_of calls.now) call) (λ place. (call ≡ suc place) × (place < length calls.now)) }
{
    if call == 0 {
        return None;
    }
    let place = call as usize - 1;
    if place < calls.len() {
        Some(place)
    } else {
        None
    }
}

/// Sets where the call of a number stands.
#[tactic(auto, using(crate::proofs::Setting::set_there))]
fn set_call<'a>(calls: &mut Vec<CallState<'a>>, call: u32, state: CallState<'a>)
    ensures { map state_of calls.new.items ≡ source.with_call call (state_of state.entry) (map state_of calls.old.items) }
{
    match place_in(calls, call) {
        None => {}
        Some(place) => calls[place] = state,
    }
}

/// Takes where the call of a number stands. What is left there is to be set again.
#[tactic(auto, using(crate::proofs::Setting::taken, crate::proofs::Setting::set_again))]
fn take_call<'a>(calls: &mut Vec<CallState<'a>>, call: u32) -> CallState<'a>
    ensures state { state_of result ≡ unwrap_or (source.nth (map state_of calls.old.items) call) source.Fresh }
    ensures others { (state : source.CallState) → source.with_call call state (map state_of calls.new.items) ≡ source.with_call call state (map state_of calls.old.items) }
{
    match place_in(calls, call) {
        None => CallState::Fresh,
        Some(place) => mem::replace(&mut calls[place], CallState::Fresh),
    }
}

/// Where the call of a step that started so comes to rest.
///
/// # Errors
/// For want of memory.
fn led<'a>(
    alloc: Global,
    program: &'a Program,
    started: Started<'a>,
) -> Result<Rest<'a>, AllocError>
    ensures { (now : source.Source) (call : ℕ) → IfOk result (λ rest. source.Leads program.entry.now now call (started_of started.entry) (source.left call (state_of rest.state) rest.fields.items now)) }
{
    match started {
        Started::Goes(frames, machine) => {
            run_on(alloc, program.methods.as_slice(), frames, machine)
        }
        Started::Stays(state, fields) => Ok(Rest { state, fields }),
    }
}

/// A call begins.
///
/// # Errors
/// For want of memory.
pub(crate) fn begin<'a>(
    alloc: Global,
    program: &'a Program,
    given: &Calls,
    fields: &mut Vec<FieldState>,
    calls: &mut Vec<CallState<'a>>,
    call: u32,
) -> Result<(), AllocError>
    ensures { let now : source.Source = record { fields = fields.old.items; calls = map state_of calls.old.items } in
        OnOk result (source.Leads program.entry.now now call (source.begun program.entry.now now (source.nth given.now call)) (record { fields = fields.new.items; calls = map state_of calls.new.items })) }
{
    let before = mem::replace(fields, Vec::new(alloc));
    let started = begun(alloc, program, given, call, before)?;
    let rest = led(alloc, program, started)?;
    *fields = rest.fields;
    set_call(calls, call, rest.state);
    Ok(())
}

/// A block of a call is run.
///
/// # Errors
/// For want of memory.
pub(crate) fn run_block<'a>(
    alloc: Global,
    program: &'a Program,
    fields: &mut Vec<FieldState>,
    calls: &mut Vec<CallState<'a>>,
    call: u32,
    instance: Option<u8>,
) -> Result<(), AllocError>
    ensures { let now : source.Source = record { fields = fields.old.items; calls = map state_of calls.old.items } in
        OnOk result (source.Leads program.entry.now now call (source.block_run now instance (source.state_of now call)) (record { fields = fields.new.items; calls = map state_of calls.new.items })) }
{
    let before = mem::replace(fields, Vec::new(alloc));
    let state = take_call(calls, call);
    let started = block_run(alloc, state, before, instance)?;
    let rest = led(alloc, program, started)?;
    *fields = rest.fields;
    set_call(calls, call, rest.state);
    Ok(())
}

/// An instance is visited for a call.
///
/// # Errors
/// For want of memory.
pub(crate) fn visit<'a>(
    alloc: Global,
    program: &'a Program,
    fields: &mut Vec<FieldState>,
    calls: &mut Vec<CallState<'a>>,
    call: u32,
    instance: u8,
) -> Result<(), AllocError>
    ensures { let now : source.Source = record { fields = fields.old.items; calls = map state_of calls.old.items } in
        OnOk result (source.Leads program.entry.now now call (source.visit_run now instance (source.state_of now call)) (record { fields = fields.new.items; calls = map state_of calls.new.items })) }
{
    let before = mem::replace(fields, Vec::new(alloc));
    let state = take_call(calls, call);
    let started = visit_run(alloc, state, before, instance)?;
    let rest = led(alloc, program, started)?;
    *fields = rest.fields;
    set_call(calls, call, rest.state);
    Ok(())
}

/// The parts of a call's access are joined.
///
/// # Errors
/// For want of memory.
pub(crate) fn join<'a>(
    alloc: Global,
    program: &'a Program,
    fields: &mut Vec<FieldState>,
    calls: &mut Vec<CallState<'a>>,
    call: u32,
) -> Result<(), AllocError>
    ensures { let now : source.Source = record { fields = fields.old.items; calls = map state_of calls.old.items } in
        OnOk result (source.Leads program.entry.now now call (source.join_run now (source.state_of now call)) (record { fields = fields.new.items; calls = map state_of calls.new.items })) }
{
    let before = mem::replace(fields, Vec::new(alloc));
    let state = take_call(calls, call);
    let started = join_run(alloc, state, before)?;
    let rest = led(alloc, program, started)?;
    *fields = rest.fields;
    set_call(calls, call, rest.state);
    Ok(())
}

/// The class of a field.
fn class_of(program: &Program, field: usize) -> ClassName
    ensures { result ≡ source.class_of program.now field }
{
    match program.fields.get(field) {
        None => ClassName::Counter,
        Some(holder) => holder.class,
    }
}

/// A partial field has an empty instance more.
///
/// # Errors
/// For want of memory.
pub(crate) fn grow(
    alloc: Global,
    program: &Program,
    fields: &mut Vec<FieldState>,
    field: usize,
) -> Result<(), AllocError>
    ensures { OnOk result (fields.new.items ≡ source.grown program.now field (slice_get fields.old.items field) fields.old.items) }
{
    if field < fields.len() {
        let empty = AnyState::new(alloc, class_of(program, field));
        fields[field].grow(empty)?;
    }
    Ok(())
}
