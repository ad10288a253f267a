//! Instructions on vectors in variables.

ghost use Rattle.std.specs.Prelude.{◌≡◌, false, length, pos, replicate, slice_get, IfOk, Some, if◌then◌else◌};
ghost use Rattle.std.specs.Option.{option_copied};
ghost use Rattle.flat_code.specs.declared.graph.Instr.TheVariants as instr;
ghost use Rattle.flat_code.specs.Machine.{most_elements};
ghost use Rattle.task_code.specs.Indices.{item_of, with_element};
ghost use Rattle.task_code.specs.Seen.{Can, Does};

use crate::engine::Engine;
use crate::frame::Frame;
use crate::step::{Ending, Step};
use sdg_base::{Exn, Longs, Outcome, Val};
use sqlite_items::{Items, at};
use std::alloc::{AllocError, Global};

/// The most elements that a vector may have.
const MOST_ELEMENTS: usize = 4096;

/// How a call ends by an exception.
pub fn throws(exception: Exn) -> Step
    ensures { result ≡ Step.End (Ending.Stopped (Outcome.Throws exception)) }
{
    Step::End(Ending::Stopped(Outcome::Throws(exception)))
}

/// What stands at an index; `None` where the index is outside.
pub fn item_of<'t, T>(items: &'t [T], index: &Val) -> Option<&'t T>
    ensures { option_copied result ≡ item_of items.now index.now }
{
    match index {
        Val::Int(index) => match usize::try_from(*index) {
            Ok(index) => at(items, index),
            Err(_) => None,
        },
        _ => None,
    }
}

/// So many zeros.
fn zeros(alloc: Global, count: usize) -> Result<Longs, AllocError>
    ensures { IfOk result (λ zeros. zeros ≡ replicate count (pos 0)) }
{
    Ok(Items::from_vec(vec![in alloc; 0_i64; count]?))
}

/// A count as an `int`. So many that no `int` counts them are refused as want of memory.
pub fn counted(count: usize) -> Result<Val, AllocError>
    ensures { IfOk result (λ counted. counted ≡ Val.Int (pos count)) }
{
    match i32::try_from(count) {
        Ok(count) => Ok(Val::Int(count)),
        Err(_) => Err(AllocError),
    }
}

/// Sets an element of a vector, and says whether it did; else nothing is changed.
fn set_element(vector: &mut Val, index: &Val, element: &Val) -> bool
    ensures set { with_element vector.old index.now element.now ≡ (if result then Some vector.new else None) }
    ensures unset { result ≡ false → vector.new ≡ vector.old }
{
    match (vector, index, element) {
        (Val::Vector(longs), Val::Int(index), Val::Long(element)) => {
            match usize::try_from(*index) {
                Ok(index) if index < longs.len() => {
                    longs.set(index, *element);
                    true
                }
                _ => false,
            }
        }
        _ => false,
    }
}

impl Engine<'_> {
    /// Pops how many elements, and pushes a vector of so many zeros.
    pub fn new_vector(&self, frame: &mut Frame) -> Result<Step, AllocError>
        requires { Can self.now instr.NewVector frame.old }
        ensures { IfOk result (λ step. Does self.now instr.NewVector frame.old frame.new step) }
    {
        match frame.stack.pop() {
            Val::Int(count) => match usize::try_from(count) {
                Err(_) => Ok(throws(Exn::NegativeSize)),
                Ok(count) if count > MOST_ELEMENTS => {
                    Ok(Step::End(Ending::Stopped(Outcome::Limit)))
                }
                Ok(count) => {
                    frame.stack.push(Val::Vector(zeros(self.alloc, count)?))?;
                    Ok(Step::Next)
                }
            },
            _ => unreachable!(),
        }
    }

    /// Pushes how many elements the vector in a variable has.
    pub fn vector_size(&self, variable: u32, frame: &mut Frame) -> Result<Step, AllocError>
        requires { Can self.now (instr.VectorSize variable) frame.old }
        ensures { IfOk result (λ step. Does self.now (instr.VectorSize variable) frame.old frame.new step) }
    {
        match at(frame.variables.as_slice(), variable as usize) {
            Some(Val::Vector(longs)) => {
                let size = counted(longs.len())?;
                frame.stack.push(size)?;
                Ok(Step::Next)
            }
            _ => unreachable!(),
        }
    }

    /// Pops an index, and pushes that element of the vector in a variable.
    pub fn vector_get(&self, variable: u32, frame: &mut Frame) -> Result<Step, AllocError>
        requires { Can self.now (instr.VectorGet variable) frame.old }
        ensures { IfOk result (λ step. Does self.now (instr.VectorGet variable) frame.old frame.new step) }
    {
        let index = frame.stack.pop();
        match at(frame.variables.as_slice(), variable as usize) {
            Some(Val::Vector(longs)) => match item_of(longs.as_slice(), &index) {
                Some(element) => {
                    frame.stack.push(Val::Long(*element))?;
                    Ok(Step::Next)
                }
                None => Ok(throws(Exn::Index)),
            },
            _ => unreachable!(),
        }
    }

    /// Pops a value and then an index, and sets that element of the vector in a variable.
    pub fn vector_set(&self, variable: u32, frame: &mut Frame) -> Step
        requires { Can self.now (instr.VectorSet variable) frame.old }
        ensures { Does self.now (instr.VectorSet variable) frame.old frame.new result }
    {
        let element = frame.stack.pop();
        let index = frame.stack.pop();
        if set_element(&mut frame.variables[variable as usize], &index, &element) {
            Step::Next
        } else {
            throws(Exn::Index)
        }
    }
}
