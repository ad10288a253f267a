//! Instructions that push, pop and compute values.

ghost use Rattle.std.specs.Prelude.{◌≡◌, IfOk};
ghost use Rattle.flat_code.specs.declared.graph.Instr.TheVariants as instr;
ghost use Rattle.task_code.specs.Seen.{Can, Does};

use crate::engine::Engine;
use crate::frame::Frame;
use crate::step::{Ending, Step};
use flat_code::OperandType;
use sdg_base::{BinOp, Num, Outcome, UnOp, Val, bin, cast, copy_of, un};
use sqlite_items::at;
use std::alloc::AllocError;

impl Engine<'_> {
    /// Pushes a copy of a variable.
    pub fn load(&self, variable: u32, frame: &mut Frame) -> Result<Step, AllocError>
        requires { Can self.now (instr.Load variable) frame.old }
        ensures { IfOk result (λ step. Does self.now (instr.Load variable) frame.old frame.new step) }
    {
        match at(frame.variables.as_slice(), variable as usize) {
            Some(value) => {
                let value = copy_of(self.alloc, value)?;
                frame.stack.push(value)?;
                Ok(Step::Next)
            }
            None => unreachable!(),
        }
    }

    /// Pops into a variable.
    pub fn store(&self, variable: u32, frame: &mut Frame) -> Step
        requires { Can self.now (instr.Store variable) frame.old }
        ensures { Does self.now (instr.Store variable) frame.old frame.new result }
    {
        let value = frame.stack.pop();
        frame.variables[variable as usize] = value;
        Step::Next
    }

    /// Drops the top.
    pub fn pop(&self, frame: &mut Frame) -> Step
        requires { Can self.now instr.Pop frame.old }
        ensures { Does self.now instr.Pop frame.old frame.new result }
    {
        drop(frame.stack.pop());
        Step::Next
    }

    /// Pops two operands, and pushes the operator's value.
    pub fn binary(
        &self,
        op: BinOp,
        operands: OperandType,
        frame: &mut Frame,
    ) -> Result<Step, AllocError>
        requires { Can self.now (instr.Bin op operands) frame.old }
        ensures { IfOk result (λ step. Does self.now (instr.Bin op operands) frame.old frame.new step) }
    {
        let right = frame.stack.pop();
        let left = frame.stack.pop();
        match bin(op, &left, &right) {
            Ok(value) => {
                frame.stack.push(value)?;
                Ok(Step::Next)
            }
            Err(exception) => Ok(Step::End(Ending::Stopped(Outcome::Throws(exception)))),
        }
    }

    /// Pops an operand, and pushes the operator's value.
    pub fn unary(&self, op: UnOp, frame: &mut Frame) -> Result<Step, AllocError>
        requires { Can self.now (instr.Un op) frame.old }
        ensures { IfOk result (λ step. Does self.now (instr.Un op) frame.old frame.new step) }
    {
        let operand = frame.stack.pop();
        frame.stack.push(un(op, &operand))?;
        Ok(Step::Next)
    }

    /// Pops a number, and pushes it as one of a type.
    pub fn cast(&self, to: Num, frame: &mut Frame) -> Result<Step, AllocError>
        requires { Can self.now (instr.Cast to) frame.old }
        ensures { IfOk result (λ step. Does self.now (instr.Cast to) frame.old frame.new step) }
    {
        let number = frame.stack.pop();
        frame.stack.push(cast(to, &number))?;
        Ok(Step::Next)
    }
}
