//! Vectors, and values that were gathered.

ghost use Rattle.std.specs.Prelude.{◌≡◌, IfOk, unwrap_or, slice_get, length, replicate, pos};
ghost use Rattle.std.specs.Option.{option_copied};
ghost use Rattle.access_blocks.specs.Expressions as spec;
ghost use Rattle.access_blocks.specs.Statements as statements;
ghost use Rattle.body_run.specs.Seen.{Evaluates, machine_of};

use crate::machine::Machine;
use crate::stop::Stop;
use access_blocks::Halt;
use sdg_base::{Exn, Longs, Val, copy_of};
use sqlite_items::{Items, at};
use std::alloc::{AllocError, Global};

/// The most elements that a vector may have.
pub const MOST_ELEMENTS: usize = 4096;

/// What stands at an index; `None` where the index is outside.
fn member<'t, T>(index: &Val, items: &'t [T]) -> Option<&'t T>
    ensures { option_copied result ≡ spec.member_at index.now items.now }
{
    match index {
        Val::Int(n) => match usize::try_from(*n) {
            Ok(n) => at(items, n),
            Err(_) => None,
        },
        _ => None,
    }
}

/// The elements of a vector; none of another value.
pub fn longs_in(value: &Val) -> &[i64]
    ensures { result.now ≡ spec.longs_in value.now }
{
    match value {
        Val::Vector(longs) => longs.as_slice(),
        _ => &[],
    }
}

/// The element of a vector at an index. An index outside throws.
#[inline(never)]
pub fn element_of(longs: &[i64], index: &Val, turns: u32) -> Result<(Val, u32), Stop>
    ensures { Evaluates (λ v. v) result (spec.found Val.Long (spec.member_at index.now longs.now) turns) }
{
    match member(index, longs) {
        Some(element) => Ok((Val::Long(*element), turns)),
        None => Err(Stop::Halt(Halt::Threw(Exn::Index))),
    }
}

/// A new vector of a length, each of whose elements is 0 (JLS 15.10.1). A negative length throws, and a longer vector than
/// any may be ends the call.
#[inline(never)]
pub fn new_vector(alloc: Global, length: &Val, turns: u32) -> Result<(Val, u32), Stop>
    ensures { Evaluates (λ v. v) result (spec.new_vector length.now turns) }
{
    match length {
        Val::Int(length) => match usize::try_from(*length) {
            Err(_) => Err(Stop::Halt(Halt::Threw(Exn::NegativeSize))),
            Ok(length) if length > MOST_ELEMENTS => Err(Stop::Halt(Halt::TooLong)),
            Ok(length) => Ok((Val::Vector(zeros(alloc, length)?), turns)),
        },
        _ => Ok((Val::Unit, turns)),
    }
}

/// So many zeros.
fn zeros(alloc: Global, length: usize) -> Result<Longs, AllocError>
    ensures { IfOk result (λ zeros. zeros ≡ replicate length (pos 0)) }
{
    Ok(Items::from_vec(vec![in alloc; 0_i64; length]?))
}

/// How many there are, as an `int`, with the turns that are left. So many that no `int` counts them are refused as want of
/// memory.
#[inline(never)]
pub fn counted(length: usize, turns: u32) -> Result<(Val, u32), Stop>
    ensures { Evaluates (λ v. v) result (spec.Gives (Val.Int (pos length)) turns) }
{
    match i32::try_from(length) {
        Ok(length) => Ok((Val::Int(length), turns)),
        Err(_) => Err(Stop::Memory),
    }
}

/// A copy of a value, with the turns that are left.
#[inline(never)]
pub fn copied(alloc: Global, value: &Val, turns: u32) -> Result<(Val, u32), Stop>
    ensures { Evaluates (λ v. v) result (spec.Gives value.now turns) }
{
    Ok((copy_of(alloc, value)?, turns))
}

/// A copy of the variable of a number, with the turns that are left; `Unit` where there is no variable.
#[inline(never)]
pub fn variable_of(
    alloc: Global,
    machine: &Machine,
    variable: usize,
    turns: u32,
) -> Result<(Val, u32), Stop>
    ensures { Evaluates (λ v. v) result (spec.Gives (spec.variable_of (statements.seen_by (machine_of machine.now)) variable) turns) }
{
    match at(machine.variables.as_slice(), variable) {
        Some(value) => copied(alloc, value, turns),
        None => Ok((Val::Unit, turns)),
    }
}

/// The elements of the vector in a variable; none of another value.
pub fn longs_of(machine: &Machine, variable: usize) -> &[i64]
    ensures { result.now ≡ spec.longs_in (spec.variable_of (statements.seen_by (machine_of machine.now)) variable) }
{
    match at(machine.variables.as_slice(), variable) {
        Some(value) => longs_in(value),
        None => &[],
    }
}

/// One of the values that were gathered, with the turns that are left. An index outside throws.
pub fn gathered_at<'m>(
    machine: &'m Machine,
    index: &Val,
    turns: u32,
) -> Result<(&'m Val, u32), Stop>
    ensures { Evaluates (λ v. v.now) result (spec.gathered_at (statements.seen_by (machine_of machine.now)) index.now turns) }
{
    match member(index, machine.gathered.as_slice()) {
        Some(value) => Ok((value, turns)),
        None => Err(Stop::Halt(Halt::Threw(Exn::Index))),
    }
}
