//! What statements work on.

ghost use Rattle.std.specs.Prelude.{◌≡◌, Some, None, false, slice_get, IfOk, OnOk, if◌then◌else◌};
ghost use Rattle.std.specs.Option.{option_map};
ghost use Rattle.state_classes.specs.States.{called};
ghost use Rattle.access_blocks.specs.Statements as spec;
ghost use Rattle.body_run.specs.Seen.{machine_of, completion_of, Completes, Passes};
ghost use Rattle.body_run.specs.Fields.{machine_after};

use crate::completion::Completion;
use crate::field_state::FieldState;
use crate::stop::Stop;
use access_blocks::{Halt, Target};
use sdg_base::{Exn, Outcome, Val, Vals};
use state_classes::Method;
use std::alloc::{AllocError, Global};

/// What a body works on: its variables by number, the key of its block, the values that were gathered, the turns that
/// are left, the fields by number, and which instance of a partial field its block runs on.
#[derive(Drop)]
pub struct Machine {
    pub variables: Vec<Val>,
    pub key: Val,
    pub gathered: Vals,
    pub turns: u32,
    pub fields: Vec<FieldState>,
    pub instance: usize,
}

impl Machine {
    /// Sets the variable of a number. Where there is none, nothing is set.
    pub fn set_variable(&mut self, variable: usize, value: Val)
        ensures { machine_of self.new ≡ spec.with_variable variable value (machine_of self.old) }
    {
        if variable < self.variables.len() {
            self.variables[variable] = value;
        }
    }

    /// Sets an element of the vector in a variable. An index outside throws, and nothing is set.
    pub fn set_element(
        &mut self,
        variable: usize,
        index: &Val,
        element: &Val,
    ) -> Result<Completion, Stop>
        ensures { Completes result (machine_of self.new) (spec.element_set variable (spec.with_element (spec.variable_in (machine_of self.old) variable) index.now element.now) (machine_of self.old)) }
    {
        if variable >= self.variables.len() {
            return Err(Stop::Halt(Halt::Threw(Exn::Index)));
        }
        if set_long(&mut self.variables[variable], index, element) {
            Ok(Completion::Normal)
        } else {
            Err(Stop::Halt(Halt::Threw(Exn::Index)))
        }
    }

    /// What is left of the turns once one is spent.
    ///
    /// # Errors
    /// The call ends where none is left.
    pub fn spend(&mut self) -> Result<(), Stop>
        ensures { Passes result (machine_of self.new) (spec.spent (machine_of self.old)) }
    {
        if self.turns == 0 {
            return Err(Stop::Halt(Halt::OutOfTurns));
        }
        self.turns -= 1;
        Ok(())
    }

    /// What a method answered goes to its target. An exception, and a vector that would be too long, end the call.
    pub fn target(&mut self, target: Target, outcome: Outcome) -> Result<Completion, Stop>
        ensures { Completes result (machine_of self.new) (spec.targeted target outcome (machine_of self.old)) }
    {
        match outcome {
            Outcome::Value(value) => Ok(self.target_value(target, value)),
            Outcome::Throws(exception) => Err(Stop::Halt(Halt::Threw(exception))),
            Outcome::Limit => Err(Stop::Halt(Halt::TooLong)),
        }
    }

    fn target_value(&mut self, target: Target, value: Val) -> Completion
        ensures { spec.targeted target (Outcome.Value value) (machine_of self.old) ≡ spec.completed (completion_of result) (machine_of self.new) }
    {
        match target {
            Target::Dropped => Completion::Normal,
            Target::Variable(variable) => {
                self.set_variable(variable, value);
                Completion::Normal
            }
            Target::Returned => Completion::Returns(value),
        }
    }

    /// Calls a method on the machine's part of a field, where it has one, which is the whole of a partitioned field and
    /// an instance of a partial one. The answer goes to its target.
    ///
    /// # Errors
    /// The call ends by an exception, or by a vector that would be too long; or for want of memory.
    pub fn call_on(
        &mut self,
        alloc: Global,
        field: usize,
        target: Target,
        method: Method,
        args: &Vals,
    ) -> Result<Completion, Stop>
        ensures { Completes result (machine_of self.new) (spec.called_on (spec.part_of (slice_get self.old.fields.items field) self.old.instance) field target method args.now (machine_of self.old)) }
    {
        match self.answer(alloc, field, method, args)? {
            Some(outcome) => self.target(target, outcome),
            None => Ok(Completion::Normal),
        }
    }

    /// What a method answers on the machine's part of a field; `None` where it has none.
    fn answer(
        &mut self,
        alloc: Global,
        field: usize,
        method: Method,
        args: &Vals,
    ) -> Result<Option<Outcome>, AllocError>
        ensures outcome { IfOk result (λ outcome. outcome ≡ option_map (λ state. (called method args.now state).0) (spec.part_of (slice_get self.old.fields.items field) self.old.instance)) }
        ensures state { OnOk result (machine_of self.new ≡ machine_after (λ state. (called method args.now state).1) (machine_of self.old) field) }
    {
        if field < self.fields.len() {
            self.fields[field].call(alloc, self.instance, method, args)
        } else {
            Ok(None)
        }
    }
}

/// Sets an element of a vector, and says whether it did; else nothing is changed.
fn set_long(vector: &mut Val, index: &Val, element: &Val) -> bool
    ensures set { spec.with_element vector.old index.now element.now ≡ (if result then Some vector.new else None) }
    ensures unset { result ≡ false → vector.new ≡ vector.old }
{
    match (vector, index, element) {
        (Val::Vector(longs), Val::Int(index), Val::Long(element)) => {
            match usize::try_from(*index) {
                Ok(index) if index < longs.len() => {
                    longs.set(index, *element);
                    true
                }
                _ => false,
            }
        }
        _ => false,
    }
}
