//! The variables that expressions read.

ghost use Rattle.std.specs.Prelude.{◌≡◌, ℕ, [], ◌∷◌, OnOk, IfOk, nat_eq};
ghost use Rattle.std.specs.HashSet.{contains};
ghost use Rattle.body_code.specs.Typing.{needs, needs_of_all};
ghost use Rattle.body_code.specs.Early.{is_in, key_reads};
ghost use Rattle.task_lower.specs.Early.{AreAlso};

use access_blocks::Expression;
use std::alloc::{AllocError, Global};
use std::collections::HashSet;

/// Whether an expression reads a variable.
#[cycle(reading)]
#[tactic(auto, using(crate::proofs::ReadSets::is_in_both, crate::proofs::ReadSets::is_in_one))]
pub fn is_read(variable: usize, e: &Expression) -> bool
    ensures { result ≡ is_in variable (needs e.now).variables }
{
    match e {
        Expression::Variable(v) => variable == *v,
        Expression::VectorSize(v) => variable == *v,
        Expression::VectorElement(v, at) => is_read(variable, at.get()) || variable == *v,
        Expression::Unary(_, a)
        | Expression::Cast(_, a)
        | Expression::NewVector(a)
        | Expression::Gathered(a)
        | Expression::GatheredSize(a) => is_read(variable, a.get()),
        Expression::Binary(_, a, b) | Expression::GatheredElement(a, b) => {
            is_read(variable, a.get()) || is_read(variable, b.get())
        }
        Expression::Conditional(test, a, b) => {
            is_read(variable, test.get())
                || is_read(variable, a.get())
                || is_read(variable, b.get())
        }
        Expression::Call(_, args) => is_read_in(variable, args.as_slice()),
        Expression::Nothing
        | Expression::Int(_)
        | Expression::Long(_)
        | Expression::Bool(_)
        | Expression::CarriedKey
        | Expression::GatheredLength
        | Expression::Merge(_) => false,
    }
}

/// Whether some of several expressions reads a variable.
#[cycle(reading)]
#[tactic(auto, using(crate::proofs::ReadSets::is_in_both, crate::proofs::ReadSets::is_in_one))]
pub fn is_read_in(variable: usize, all: &[Expression]) -> bool
    ensures { result ≡ is_in variable (needs_of_all all.now).variables }
{
    for e in all {
        if is_read(variable, e) {
            return true;
        }
    }
    false
}

/// Adds a variable.
#[tactic(auto, using(crate::proofs::ReadSets::also_inserted))]
pub fn note(known: &mut HashSet<usize>, variable: usize) -> Result<(), AllocError>
    ensures { OnOk result (AreAlso (variable ∷ []) known.old known.new) }
{
    known.insert(variable)?;
    Ok(())
}

/// Adds the variables that an expression reads.
#[cycle(noting)]
#[tactic(auto, using(crate::proofs::ReadSets::also_none, crate::proofs::ReadSets::also_both))]
fn note_reads(known: &mut HashSet<usize>, e: &Expression) -> Result<(), AllocError>
    ensures { OnOk result (AreAlso (needs e.now).variables known.old known.new) }
{
    match e {
        Expression::Variable(v) | Expression::VectorSize(v) => note(known, *v),
        Expression::VectorElement(v, at) => {
            note_reads(known, at.get())?;
            note(known, *v)
        }
        Expression::Unary(_, a)
        | Expression::Cast(_, a)
        | Expression::NewVector(a)
        | Expression::Gathered(a)
        | Expression::GatheredSize(a) => note_reads(known, a.get()),
        Expression::Binary(_, a, b) => {
            note_reads(known, a.get())?;
            note_reads(known, b.get())?;
            Ok(())
        }
        Expression::GatheredElement(at, index) => {
            note_reads(known, at.get())?;
            note_reads(known, index.get())?;
            Ok(())
        }
        Expression::Conditional(test, a, b) => {
            note_reads(known, test.get())?;
            note_reads(known, a.get())?;
            note_reads(known, b.get())?;
            Ok(())
        }
        Expression::Call(_, args) => note_reads_in(known, args.as_slice()),
        Expression::Nothing
        | Expression::Int(_)
        | Expression::Long(_)
        | Expression::Bool(_)
        | Expression::CarriedKey
        | Expression::GatheredLength
        | Expression::Merge(_) => Ok(()),
    }
}

#[cycle(noting)]
#[tactic(auto, using(crate::proofs::ReadSets::also_none, crate::proofs::ReadSets::also_both))]
fn note_reads_in(known: &mut HashSet<usize>, all: &[Expression]) -> Result<(), AllocError>
    ensures { OnOk result (AreAlso (needs_of_all all.now).variables known.old known.new) }
{
    for e in all {
        note_reads(known, e)?;
    }
    Ok(())
}

/// The variables that the key of a block reads.
pub fn key_reads(alloc: Global, key: &Option<Expression>) -> Result<HashSet<usize>, AllocError>
    ensures { IfOk result (λ known. (v : ℕ) → contains nat_eq known v ≡ is_in v (key_reads key.now)) }
{
    let mut known = HashSet::new(alloc);
    if let Some(key) = key {
        note_reads(&mut known, key)?;
    }
    Ok(known)
}
