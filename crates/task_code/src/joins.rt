//! The parts of a visit, gathered by rising instance.

ghost use Rattle.std.specs.Prelude.{◌≡◌, List, ◌∷◌, IfOk, Some, slice_get};
ghost use Rattle.sdg_base.specs.declared.item.Item as declared;
ghost use Rattle.flat_code.specs.Items.{gathered_of, instance_of, with_part};
ghost use Rattle.task_code.specs.Gathering.{after, gathered_by, with_others};

use sdg_base::{Item, Outcome, Vals, copy_of, copy_outcome};
use std::alloc::{AllocError, Global};

/// The instance that a part is of.
fn instance_of(part: &Item) -> u8
    ensures { result ≡ instance_of part.now }
{
    match part {
        Item::Part { instance, .. } => *instance,
        _ => 0,
    }
}

/// The part with the lowest instance.
pub fn lowest<'p>(part: &'p Item, others: &'p [Item]) -> &'p Item
    ensures { slice_get (with_part part.now others.now) 0 ≡ Some result.now }
{
    match others {
        [] => part,
        [other, ..] => {
            if instance_of(part) < instance_of(other) {
                part
            } else {
                other
            }
        }
    }
}

/// Adds what a part brought, or answers its outcome where that is no value.
fn gather_one(alloc: Global, part: &Item, values: &mut Vals) -> Result<Option<Outcome>, AllocError>
    ensures { IfOk result (λ other. (parts : List declared.Item) → after values.old (gathered_of (part.now ∷ parts)) ≡ with_others other values.new (gathered_of parts)) }
{
    match part {
        Item::Part { value, .. } => match value {
            Outcome::Value(value) => {
                values.push(copy_of(alloc, value)?)?;
                Ok(None)
            }
            Outcome::Throws(exception) => Ok(Some(Outcome::Throws(*exception))),
            Outcome::Limit => Ok(Some(Outcome::Limit)),
        },
        _ => Ok(Some(Outcome::Limit)),
    }
}

/// Adds what parts brought, in their order, or answers the first outcome that is no value.
fn gather_all(
    alloc: Global,
    parts: &[Item],
    values: &mut Vals,
) -> Result<Option<Outcome>, AllocError>
    ensures { IfOk result (λ other. after values.old (gathered_of parts.now) ≡ gathered_by other values.new) }
{
    for part in parts {
        if let Some(how) = gather_one(alloc, part, values)? {
            return Ok(Some(how));
        }
    }
    Ok(None)
}

/// The same of a part among others.
pub fn gather(
    alloc: Global,
    part: &Item,
    others: &[Item],
    values: &mut Vals,
) -> Result<Option<Outcome>, AllocError>
    ensures { IfOk result (λ other. after values.old (gathered_of (with_part part.now others.now)) ≡ gathered_by other values.new) }
{
    for (at, other) in others.iter().enumerate() {
        if instance_of(part) < instance_of(other) {
            if let Some(how) = gather_one(alloc, part, values)? {
                return Ok(Some(how));
            }
            return gather_all(alloc, &others[at..], values);
        }
        if let Some(how) = gather_one(alloc, other, values)? {
            return Ok(Some(how));
        }
    }
    gather_one(alloc, part, values)
}
