//! Instructions on what the parts of a visit brought.

ghost use Rattle.std.specs.Prelude.{◌≡◌, IfOk};
ghost use Rattle.flat_code.specs.declared.graph.Instr.TheVariants as instr;
ghost use Rattle.task_code.specs.Seen.{Can, Does};

use crate::engine::Engine;
use crate::frame::Frame;
use crate::step::Step;
use crate::vectors::{counted, item_of, throws};
use sdg_base::{Exn, Val, copy_of};
use std::alloc::AllocError;

impl Engine<'_> {
    /// Pushes how many members there are.
    pub fn collection_length(&self, _variable: u32, frame: &mut Frame) -> Result<Step, AllocError>
        requires { Can self.now (instr.CollectionLength _variable) frame.old }
        ensures { IfOk result (λ step. Does self.now (instr.CollectionLength _variable) frame.old frame.new step) }
    {
        let length = counted(self.gathered.len())?;
        frame.stack.push(length)?;
        Ok(Step::Next)
    }

    /// Pops an index, and pushes that member.
    pub fn collection_item(&self, _variable: u32, frame: &mut Frame) -> Result<Step, AllocError>
        requires { Can self.now (instr.CollectionItem _variable) frame.old }
        ensures { IfOk result (λ step. Does self.now (instr.CollectionItem _variable) frame.old frame.new step) }
    {
        let index = frame.stack.pop();
        match item_of(self.gathered, &index) {
            Some(member) => {
                let member = copy_of(self.alloc, member)?;
                frame.stack.push(member)?;
                Ok(Step::Next)
            }
            None => Ok(throws(Exn::Index)),
        }
    }

    /// Pops an index, and pushes how many elements that member has.
    pub fn collection_size(&self, _variable: u32, frame: &mut Frame) -> Result<Step, AllocError>
        requires { Can self.now (instr.CollectionSize _variable) frame.old }
        ensures { IfOk result (λ step. Does self.now (instr.CollectionSize _variable) frame.old frame.new step) }
    {
        let index = frame.stack.pop();
        match item_of(self.gathered, &index) {
            Some(Val::Vector(longs)) => {
                let size = counted(longs.len())?;
                frame.stack.push(size)?;
                Ok(Step::Next)
            }
            Some(_) => unreachable!(),
            None => Ok(throws(Exn::Index)),
        }
    }

    /// Tests that the index on the top is that of a member, and leaves it.
    pub fn collection_check(&self, _variable: u32, frame: &mut Frame) -> Result<Step, AllocError>
        requires { Can self.now (instr.CollectionCheck _variable) frame.old }
        ensures { IfOk result (λ step. Does self.now (instr.CollectionCheck _variable) frame.old frame.new step) }
    {
        let index = frame.stack.pop();
        if item_of(self.gathered, &index).is_none() {
            return Ok(throws(Exn::Index));
        }
        frame.stack.push(index)?;
        Ok(Step::Next)
    }

    /// Pops an index of an element and then one of a member, and pushes that element of that member.
    pub fn collection_get(&self, _variable: u32, frame: &mut Frame) -> Result<Step, AllocError>
        requires { Can self.now (instr.CollectionGet _variable) frame.old }
        ensures { IfOk result (λ step. Does self.now (instr.CollectionGet _variable) frame.old frame.new step) }
    {
        let element = frame.stack.pop();
        let index = frame.stack.pop();
        match item_of(self.gathered, &index) {
            Some(Val::Vector(longs)) => match item_of(longs.as_slice(), &element) {
                Some(element) => {
                    frame.stack.push(Val::Long(*element))?;
                    Ok(Step::Next)
                }
                None => Ok(throws(Exn::Index)),
            },
            Some(_) => unreachable!(),
            None => Ok(throws(Exn::Index)),
        }
    }
}
