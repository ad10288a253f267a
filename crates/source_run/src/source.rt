//! The annotated source, step by step.

ghost use Rattle.std.specs.Prelude.{◌≡◌, IfOk, OnOk, map, replicate};
ghost use Rattle.std.specs.Option.{option_copied};
ghost use Rattle.state_classes.specs.States.{empty_state};
ghost use Rattle.access_blocks.specs.Source as source;
ghost use Rattle.source_run.specs.Seen.{refusal_of, state_of};
ghost use Rattle.source_run.specs.Sources.{given_to, held_by, program_of, shown, source_of};
ghost use Rattle.source_run.specs.Stepping.{After, AsRefused};

use crate::call_state::CallState;
use crate::effects::{begin, grow, join, run_block, visit};
use crate::numbers::nth;
use crate::refusals::{Refusal, refusal_of_step};
use crate::step_error::StepError;
use access_blocks::{Holder, Program};
use body_run::FieldState;
use sdg_base::{Calls, ClassName, Outcome, Step};
use state_classes::AnyState;
use std::alloc::{AllocError, Global};

/// The annotated source of a class with calls of its entry methods, stepped by blocks. Fields and calls stand as the steps so
/// far left them.
///
/// It is spent once memory was short in a step, and then answers nothing but that.
#[derive(Drop)]
pub struct Source<'a> {
    program: &'a Program,
    given: &'a Calls,
    fields: Vec<FieldState>,
    calls: Vec<CallState<'a>>,
    is_spent: bool,
}

impl<'a> Source<'a> {
    /// The source of a program before the first step, with so many empty instances of each partial field. No call has begun.
    ///
    /// # Errors
    /// For want of memory.
    pub fn new(
        alloc: Global,
        program: &'a Program,
        calls: &'a Calls,
        width: u8,
    ) -> Result<Source<'a>, AllocError>
        ensures source { IfOk result (λ made. source_of made ≡ Some (source.source_at_start program.entry.now calls.entry.now width)) }
        ensures program { IfOk result (λ made. program_of made ≡ program.entry.now) }
        ensures given { IfOk result (λ made. given_to made ≡ calls.entry.now) }
    {
        let fields = fields_at_start(alloc, program.fields.as_slice(), usize::from(width))?;
        let fresh = calls_at_start(alloc, calls)?;
        Ok(Source {
            program,
            given: calls,
            fields,
            calls: fresh,
            is_spent: false,
        })
    }

    /// Makes a step.
    ///
    /// # Errors
    /// Where the step is not legal; nothing is then changed. Where memory is short; the source is then spent.
    pub fn step(&mut self, alloc: Global, step: Step) -> Result<(), StepError>
        ensures after { After (program_of self.old) (given_to self.old) step (source_of self.old) (source_of self.new) result }
        ensures program { program_of self.new ≡ program_of self.old }
        ensures given { given_to self.new ≡ given_to self.old }
    {
        if self.is_spent {
            return Err(StepError::Memory);
        }
        match refusal_of_step(&self.fields, &self.calls, step) {
            Some(refusal) => Err(error_of(refusal)),
            None => match self.make(alloc, step) {
                Ok(()) => Ok(()),
                Err(error) => {
                    self.is_spent = true;
                    Err(StepError::from(error))
                }
            },
        }
    }

    /// Makes a step that is legal.
    ///
    /// # Errors
    /// For want of memory.
    fn make(&mut self, alloc: Global, step: Step) -> Result<(), AllocError>
        ensures done { OnOk result (source.Does (program_of self.old) (given_to self.old) (held_by self.old) step (held_by self.new)) }
        ensures program { program_of self.new ≡ program_of self.old }
        ensures given { given_to self.new ≡ given_to self.old }
        ensures spent { self.new.is_spent ≡ self.old.is_spent }
    {
        let program = self.program;
        match step {
            Step::Begin { call } => {
                begin(
                    alloc,
                    program,
                    self.given,
                    &mut self.fields,
                    &mut self.calls,
                    call,
                )
            }
            Step::Block { call, instance } => {
                run_block(
                    alloc,
                    program,
                    &mut self.fields,
                    &mut self.calls,
                    call,
                    instance,
                )
            }
            Step::Visit { call, instance } => {
                visit(
                    alloc,
                    program,
                    &mut self.fields,
                    &mut self.calls,
                    call,
                    instance,
                )
            }
            Step::Join { call } => join(alloc, program, &mut self.fields, &mut self.calls, call),
            Step::Grow { field } => grow(alloc, program, &mut self.fields, usize::from(field)),
        }
    }

    /// How a call ended, if it has: calls count from 1. A spent source has no outcomes.
    pub fn outcome(&self, call: u32) -> Option<&Outcome>
        ensures { option_copied result ≡ shown (source_of self.now) call }
    {
        if self.is_spent {
            return None;
        }
        match nth(&self.calls, call) {
            Some(CallState::Ended(outcome)) => Some(outcome),
            _ => None,
        }
    }
}

/// The error of a step that is refused.
fn error_of(refusal: Refusal) -> StepError
    ensures { AsRefused (refusal_of (Some refusal)) result }
{
    match refusal {
        Refusal::Unknown => StepError::Unknown,
        Refusal::NoInstance => StepError::NoInstance,
        Refusal::NotNext(call) => StepError::NotNext { call },
    }
}

/// So many empty instances.
///
/// # Errors
/// For want of memory.
fn instances(alloc: Global, class: ClassName, width: usize) -> Result<Vec<AnyState>, AllocError>
    ensures { IfOk result (λ states. states.items ≡ replicate width (empty_state class)) }
{
    let mut states = Vec::new(alloc);
    for _instance in 0..width {
        states.push(AnyState::new(alloc, class))?;
    }
    Ok(states)
}

/// A field before the first step.
///
/// # Errors
/// For want of memory.
fn field_at_start(alloc: Global, holder: Holder, width: usize) -> Result<FieldState, AllocError>
    ensures { IfOk result (λ field. field ≡ source.field_at_start width holder) }
{
    if holder.is_partial {
        let states = instances(alloc, holder.class, width)?;
        Ok(FieldState::instances(states))
    } else {
        Ok(FieldState::whole(AnyState::new(alloc, holder.class)))
    }
}

/// The fields before the first step.
///
/// # Errors
/// For want of memory.
fn fields_at_start(
    alloc: Global,
    holders: &[Holder],
    width: usize,
) -> Result<Vec<FieldState>, AllocError>
    ensures { IfOk result (λ fields. fields.items ≡ map (source.field_at_start width) holders.now) }
{
    let mut fields = Vec::new(alloc);
    for holder in holders {
        fields.push(field_at_start(alloc, *holder, width)?)?;
    }
    Ok(fields)
}

/// The calls before the first step, of which none has begun.
///
/// # Errors
/// For want of memory.
fn calls_at_start<'a>(alloc: Global, calls: &Calls) -> Result<Vec<CallState<'a>>, AllocError>
    ensures { IfOk result (λ fresh. map state_of fresh.items ≡ map (λ c. source.Fresh) calls.now) }
{
    let mut fresh = Vec::new(alloc);
    for _call in calls.as_slice() {
        fresh.push(CallState::Fresh)?;
    }
    Ok(fresh)
}
