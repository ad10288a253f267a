//! What Java's expressions give, and how a call ends.

ghost use Rattle.std.specs.Prelude.{◌≡◌, IfOk};

use sqlite_items::Items;
use std::alloc::{AllocError, Global};

/// Bytes, seen as the list of them.
pub type Bytes = Items<u8>;

/// A name as its bytes, which are ASCII in every accepted text.
pub type Name = Items<u8>;

/// The elements of a vector, each a Java `long`.
pub type Longs = Items<i64>;

/// Values in order, as arguments and variables are.
pub type Vals = Items<Val>;

/// How calls ended, in the order of the calls.
pub type Outcomes = Items<Outcome>;

/// A type of numbers (JLS 4.2.1): `int` has 32 bits and `long` 64, in two's complement.
#[derive(Clone, Copy, Debug, PartialEq, Eq)]
pub enum Num {
    Int,
    Long,
}

/// A value of a Java expression. `Unit` is what a `void` method gives.
#[derive(Debug, Drop)]
pub enum Val {
    Int(i32),
    Long(i64),
    Bool(bool),
    Vector(Longs),
    Unit,
}

/// An exception, which ends a call at once (JLS 11): a zero divisor, an index outside, a negative
/// length.
#[derive(Clone, Copy, Debug, PartialEq, Eq)]
pub enum Exn {
    Arithmetic,
    Index,
    NegativeSize,
}

/// How a call ended: with a value, with an exception, or with no turn or room left.
#[derive(Debug, Drop)]
pub enum Outcome {
    Value(Val),
    Throws(Exn),
    Limit,
}

/// The same value again.
pub fn copy_of(alloc: Global, value: &Val) -> Result<Val, AllocError>
    ensures { IfOk result (λ copy. copy ≡ value.now) }
{
    match value {
        Val::Int(n) => Ok(Val::Int(*n)),
        Val::Long(n) => Ok(Val::Long(*n)),
        Val::Bool(b) => Ok(Val::Bool(*b)),
        Val::Vector(longs) => Ok(Val::Vector(Items::from_slice(alloc, longs.as_slice())?)),
        Val::Unit => Ok(Val::Unit),
    }
}

/// The same values again.
pub fn copy_values(alloc: Global, values: &[Val]) -> Result<Vals, AllocError>
    ensures { IfOk result (λ copy. copy ≡ values.now) }
{
    let mut copy = Items::new(alloc);
    for value in values {
        copy.push(copy_of(alloc, value)?)?;
    }
    Ok(copy)
}

/// The same outcome again.
pub fn copy_outcome(alloc: Global, outcome: &Outcome) -> Result<Outcome, AllocError>
    ensures { IfOk result (λ copy. copy ≡ outcome.now) }
{
    match outcome {
        Outcome::Value(value) => Ok(Outcome::Value(copy_of(alloc, value)?)),
        Outcome::Throws(exception) => Ok(Outcome::Throws(*exception)),
        Outcome::Limit => Ok(Outcome::Limit),
    }
}
