//! The states of a field.

ghost use Rattle.std.specs.Prelude.{◌≡◌, Some, IfOk, OnOk, OnErr};
ghost use Rattle.std.specs.Option.{option_map, option_copied};
ghost use Rattle.state_classes.specs.States.{called};
ghost use Rattle.access_blocks.specs.Statements.{Whole, Instances, part_of, with_part};
ghost use Rattle.access_blocks.specs.Source.{width_in, grown_field};
ghost use Rattle.body_run.specs.Fields.{field_of, field_after};

use sdg_base::{Outcome, Vals};
use sqlite_items::at;
use state_classes::{Access, AnyState, Method};
use std::alloc::{AllocError, Global};
use std::marker::Model;

/// How the states of a field are kept.
#[derive(Drop)]
enum States {
    Whole(AnyState),
    Instances(Vec<AnyState>),
}

/// A partitioned field whole, or the instances of a partial one in their order.
#[derive(Drop)]
pub struct FieldState {
    states: States,
}

impl Model for FieldState {
    ghost use Rattle.access_blocks.specs.Statements.{Field};
    ghost use Rattle.body_run.specs.Fields.{field_of};

    ghost Value = { Field };

    ghost view = { λ f. field_of f.states };
}

impl FieldState {
    /// A partitioned field.
    pub fn whole(state: AnyState) -> FieldState
        ensures { result ≡ Whole state }
    {
        FieldState {
            states: States::Whole(state),
        }
    }

    /// The instances of a partial field.
    pub fn instances(states: Vec<AnyState>) -> FieldState
        ensures { result ≡ Instances states.items }
    {
        FieldState {
            states: States::Instances(states),
        }
    }

    /// How many instances it has, which is 0 of a partitioned field.
    pub fn width(&self) -> usize
        ensures { result ≡ width_in (Some self.now) }
    {
        match &self.states {
            States::Whole(_) => 0,
            States::Instances(states) => states.len(),
        }
    }

    /// One part of the field: the whole of it, or an instance. `None` exactly where there is no such instance.
    pub fn part(&self, instance: usize) -> Option<&AnyState>
        ensures { option_copied result ≡ part_of (Some self.now) instance }
    {
        match &self.states {
            States::Whole(state) => Some(state),
            States::Instances(states) => at(states.as_slice(), instance),
        }
    }

    /// Adds an instance behind the others. A partitioned field stays as it is.
    ///
    /// # Errors
    /// For want of memory. The field is then as it was.
    pub fn grow(&mut self, state: AnyState) -> Result<(), AllocError>
        ensures ok { OnOk result (self.new ≡ grown_field state self.old) }
        ensures err { OnErr result (self.new ≡ self.old) }
    {
        self.states.grow(state)
    }

    /// Calls a method on one part of the field: the whole of it, or an instance. `None` exactly where there is no such
    /// instance.
    ///
    /// # Errors
    /// For want of memory.
    pub fn call(
        &mut self,
        alloc: Global,
        instance: usize,
        method: Method,
        args: &Vals,
    ) -> Result<Option<Outcome>, AllocError>
        ensures outcome { IfOk result (λ outcome. outcome ≡ option_map (λ state. (called method args.now state).0) (part_of (Some self.old) instance)) }
        ensures state { OnOk result (self.new ≡ field_after (λ state. (called method args.now state).1) self.old instance) }
    {
        self.states.call(alloc, instance, method, args)
    }
}

impl States {
    fn grow(&mut self, state: AnyState) -> Result<(), AllocError>
        ensures ok { OnOk result (field_of self.new ≡ grown_field state (field_of self.old)) }
        ensures err { OnErr result (field_of self.new ≡ field_of self.old) }
    {
        match self {
            States::Whole(_) => Ok(()),
            States::Instances(states) => {
                states.push(state)?;
                Ok(())
            }
        }
    }

    fn call(
        &mut self,
        alloc: Global,
        instance: usize,
        method: Method,
        args: &Vals,
    ) -> Result<Option<Outcome>, AllocError>
        ensures outcome { IfOk result (λ outcome. outcome ≡ option_map (λ state. (called method args.now state).0) (part_of (Some (field_of self.old)) instance)) }
        ensures state { OnOk result (field_of self.new ≡ field_after (λ state. (called method args.now state).1) (field_of self.old) instance) }
    {
        match self {
            States::Whole(state) => Ok(Some(state.call(alloc, method, args)?)),
            States::Instances(states) => call_one(alloc, states, instance, method, args),
        }
    }
}

fn call_one(
    alloc: Global,
    states: &mut Vec<AnyState>,
    instance: usize,
    method: Method,
    args: &Vals,
) -> Result<Option<Outcome>, AllocError>
    ensures outcome { IfOk result (λ outcome. outcome ≡ option_map (λ state. (called method args.now state).0) (part_of (Some (Instances states.old.items)) instance)) }
    ensures state { OnOk result (Instances states.new.items ≡ field_after (λ state. (called method args.now state).1) (Instances states.old.items) instance) }
{
    if instance < states.len() {
        Ok(Some(states[instance].call(alloc, method, args)?))
    } else {
        Ok(None)
    }
}
