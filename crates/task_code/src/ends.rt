//! Instructions that go elsewhere, call methods, or end a run of code.

ghost use Rattle.std.specs.Prelude.{◌≡◌, IfOk};
ghost use Rattle.flat_code.specs.declared.graph.Instr.TheVariants as instr;
ghost use Rattle.task_code.specs.Seen.{Can, Does};

use crate::engine::Engine;
use crate::frame::Frame;
use crate::signatures::signature_at;
use crate::step::{Ending, Step};
use sdg_base::{Name, Outcome, Val};
use sqlite_items::{Items, at};
use state_classes::Method;
use std::alloc::AllocError;

impl Engine<'_> {
    /// Pops a boolean, and goes elsewhere where it is false.
    pub fn if_false(&self, to: u32, frame: &mut Frame) -> Step
        requires { Can self.now (instr.IfFalse to) frame.old }
        ensures { Does self.now (instr.IfFalse to) frame.old frame.new result }
    {
        match frame.stack.pop() {
            Val::Bool(true) => Step::Next,
            Val::Bool(false) => Step::Jump(to),
            _ => unreachable!(),
        }
    }

    /// Spends a turn, or ends the call where none is left.
    pub fn turn(&self, frame: &mut Frame) -> Step
        ensures { Does self.now instr.Turn frame.old frame.new result }
    {
        if frame.turns == 0 {
            return Step::End(Ending::Stopped(Outcome::Limit));
        }
        frame.turns -= 1;
        Step::Next
    }

    /// Pops the arguments of a method that is to be called.
    pub fn call(&self, method: u16, frame: &mut Frame) -> Result<Step, AllocError>
        requires { Can self.now (instr.Call method) frame.old }
        ensures { IfOk result (λ step. Does self.now (instr.Call method) frame.old frame.new step) }
    {
        match at(self.graph.methods.as_slice(), usize::from(method)) {
            Some(called) => {
                let args = frame.stack.pop_many(called.params as usize)?;
                Ok(Step::Call(method, args))
            }
            None => unreachable!(),
        }
    }

    /// Pushes the key that the item carries.
    pub fn push_key(&self, frame: &mut Frame) -> Result<Step, AllocError>
        requires { Can self.now instr.Key frame.old }
        ensures { IfOk result (λ step. Does self.now instr.Key frame.old frame.new step) }
    {
        match self.key {
            Some(key) => {
                frame.stack.push(Val::Long(key))?;
                Ok(Step::Next)
            }
            None => unreachable!(),
        }
    }

    /// Pops the arguments of a method of the field that is to be called.
    pub fn access(&self, name: &Name, method: Method, frame: &mut Frame) -> Result<Step, AllocError>
        requires { Can self.now (instr.Access name.now method) frame.old }
        ensures { IfOk result (λ step. Does self.now (instr.Access name.now method) frame.old frame.new step) }
    {
        match signature_at(self.graph.fields.as_slice(), name.as_slice(), method) {
            Some(signature) => {
                let args = frame.stack.pop_many(signature.arguments.len())?;
                Ok(Step::Access(method, Items::from_vec(args)))
            }
            None => unreachable!(),
        }
    }

    /// Ends a visit with the top value, or without one.
    pub fn part(&self, join: u32, frame: &mut Frame) -> Step
        ensures { Does self.now (instr.Part join) frame.old frame.new result }
    {
        let value = match frame.stack.take() {
            Some(value) => value,
            None => Val::Unit,
        };
        Step::End(Ending::PartFor(join, value))
    }

    /// Ends a method with the popped value.
    pub fn returned(&self, frame: &mut Frame) -> Step
        requires { Can self.now instr.Return frame.old }
        ensures { Does self.now instr.Return frame.old frame.new result }
    {
        Step::End(Ending::Returned(frame.stack.pop()))
    }
}
