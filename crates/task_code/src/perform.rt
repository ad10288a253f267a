//! What single instructions do.

ghost use Rattle.std.specs.Prelude.{◌≡◌, ◌∷◌, IfOk, OnOk};
ghost use Rattle.task_code.specs.Seen.{Can, Does};

use crate::engine::Engine;
use crate::frame::Frame;
use crate::step::{Ending, Step};
use flat_code::Instr;
use sdg_base::Val;
use std::alloc::AllocError;

impl Engine<'_> {
    /// Performs an instruction, but for the calls of methods and the accesses to the state.
    pub fn perform(&self, instr: &Instr, frame: &mut Frame) -> Result<Step, AllocError>
        requires { Can self.now instr.now frame.old }
        ensures { IfOk result (λ step. Does self.now instr.now frame.old frame.new step) }
    {
        match instr {
            Instr::Int(n) => pushed(Val::Int(*n), frame),
            Instr::Long(n) => pushed(Val::Long(*n), frame),
            Instr::Bool(b) => pushed(Val::Bool(*b), frame),
            Instr::Load(variable) => self.load(*variable, frame),
            Instr::Store(variable) => Ok(self.store(*variable, frame)),
            Instr::Pop => Ok(self.pop(frame)),
            Instr::Bin(op, operands) => self.binary(*op, *operands, frame),
            Instr::Un(op) => self.unary(*op, frame),
            Instr::Cast(to) => self.cast(*to, frame),
            Instr::Jump(to) => Ok(Step::Jump(*to)),
            Instr::IfFalse(to) => Ok(self.if_false(*to, frame)),
            Instr::Turn => Ok(self.turn(frame)),
            Instr::NewVector => self.new_vector(frame),
            Instr::VectorSize(variable) => self.vector_size(*variable, frame),
            Instr::VectorGet(variable) => self.vector_get(*variable, frame),
            Instr::VectorSet(variable) => Ok(self.vector_set(*variable, frame)),
            Instr::CollectionLength(variable) => self.collection_length(*variable, frame),
            Instr::CollectionItem(variable) => self.collection_item(*variable, frame),
            Instr::CollectionSize(variable) => self.collection_size(*variable, frame),
            Instr::CollectionCheck(variable) => self.collection_check(*variable, frame),
            Instr::CollectionGet(variable) => self.collection_get(*variable, frame),
            Instr::Call(method) => self.call(*method, frame),
            Instr::Key => self.push_key(frame),
            Instr::Access(name, method) => self.access(name, *method, frame),
            Instr::Cut(task) => Ok(Step::End(Ending::CutTo(*task))),
            Instr::Part(join) => Ok(self.part(*join, frame)),
            Instr::Merge(method) => Ok(Step::Merge(*method)),
            Instr::Return => Ok(self.returned(frame)),
            Instr::ReturnVoid => Ok(Step::End(Ending::Returned(Val::Unit))),
        }
    }
}

/// Pushes a value.
fn pushed(value: Val, frame: &mut Frame) -> Result<Step, AllocError>
    ensures step { IfOk result (λ step. step ≡ Step.Next) }
    ensures frame { OnOk result (frame.new ≡ record frame.old { stack = value ∷ frame.old.stack }) }
{
    frame.stack.push(value)?;
    Ok(Step::Next)
}
