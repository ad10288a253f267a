//! What is made of the value of one operand.

ghost use Rattle.access_blocks.specs.Statements.{seen_by};
ghost use Rattle.body_run.specs.Applications.{applied};
ghost use Rattle.body_run.specs.Seen.{Evaluates, machine_of};

use crate::machine::Machine;
use crate::operators::{converted, unary};
use crate::stop::Stop;
use crate::vectors::{copied, counted, element_of, gathered_at, longs_in, longs_of, new_vector};
use sdg_base::{Num, UnOp, Val};
use std::alloc::Global;

/// What an expression makes of the value of its one operand.
#[derive(Clone, Copy)]
pub enum Application {
    Unary(UnOp),
    Cast(Num),
    /// The operand is a length.
    NewVector,
    /// The operand is an index into the vector in a variable.
    VectorElement(usize),
    /// The operand says which of the gathered values.
    Gathered,
    /// The operand says the length of which of the gathered vectors.
    GatheredSize,
}

/// What is made of the value of an operand, with the turns that are left.
#[inline(never)]
pub fn apply(
    alloc: Global,
    application: Application,
    operand: Val,
    machine: &Machine,
    turns: u32,
) -> Result<(Val, u32), Stop>
    ensures { Evaluates (λ v. v) result (applied application operand (seen_by (machine_of machine.now)) turns) }
{
    match application {
        Application::Unary(op) => Ok((unary(op, &operand), turns)),
        Application::Cast(to) => Ok((converted(to, &operand), turns)),
        Application::NewVector => new_vector(alloc, &operand, turns),
        Application::VectorElement(variable) => {
            element_of(longs_of(machine, variable), &operand, turns)
        }
        Application::Gathered => gathered(alloc, operand, machine, turns),
        Application::GatheredSize => gathered_size(operand, machine, turns),
    }
}

/// A copy of one of the gathered values.
fn gathered(alloc: Global, at: Val, machine: &Machine, turns: u32) -> Result<(Val, u32), Stop>
    ensures { Evaluates (λ v. v) result (applied Application.Gathered at (seen_by (machine_of machine.now)) turns) }
{
    let (value, left) = gathered_at(machine, &at, turns)?;
    copied(alloc, value, left)
}

/// The length of one of the gathered vectors.
fn gathered_size(at: Val, machine: &Machine, turns: u32) -> Result<(Val, u32), Stop>
    ensures { Evaluates (λ v. v) result (applied Application.GatheredSize at (seen_by (machine_of machine.now)) turns) }
{
    let (value, left) = gathered_at(machine, &at, turns)?;
    counted(longs_in(value).len(), left)
}
