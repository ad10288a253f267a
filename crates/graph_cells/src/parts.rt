//! Parts of a call, in the order of their instances.

ghost use Rattle.std.specs.Prelude.{◌≡◌, ◌≤◌, OnOk, length};
ghost use Rattle.std.specs.List.{insert, position, position_or_len};
ghost use Rattle.flat_code.specs.Items.{instance_of, with_part};
ghost use Rattle.graph_cells.specs.Gathered.{is_beside, all_beside, is_before};

use sdg_base::Item;
use std::alloc::AllocError;
use task_code::Parts;

/// The instance that a part is of.
fn instance_of(part: &Item) -> u8
    ensures { result ≡ instance_of part.now }
{
    match part {
        Item::Part { instance, .. } => *instance,
        _ => 0,
    }
}

/// Whether two parts are of one call and one join, and of different instances of as many.
fn is_beside(part: &Item, other: &Item) -> bool
    ensures { result ≡ is_beside part.now other.now }
{
    match (part, other) {
        (
            Item::Part {
                call,
                task,
                width,
                instance,
                ..
            },
            Item::Part {
                call: other_call,
                task: other_task,
                width: other_width,
                instance: other_instance,
                ..
            },
        ) => {
            *other_call == *call
                && *other_task == *task
                && *other_width == *width
                && *other_instance != *instance
        }
        _ => false,
    }
}

/// Whether an item is a part that belongs to all of these, or there are none.
pub(crate) fn all_beside(item: &Item, others: &[Item]) -> bool
    ensures { result ≡ all_beside item.now others.now }
{
    others.iter().all(|other| is_beside(item, other))
}

/// Where the first part of a greater instance stands.
fn first_after(part: &Item, others: &[Item]) -> Option<usize>
    ensures { result ≡ position (is_before part.now) others.now }
{
    others
        .iter()
        .position(|other| instance_of(part) < instance_of(other))
}

/// How many parts stand before the first of a greater instance.
fn place_for(part: &Item, others: &[Item]) -> usize
    ensures place { result ≡ position_or_len (is_before part.now) others.now }
    ensures within { result ≤ length others.now }
{
    match first_after(part, others) {
        Some(place) => place,
        None => others.len(),
    }
}

/// Puts a part at a place among others.
fn insert(parts: &mut Parts, place: usize, part: Item) -> Result<(), AllocError>
    requires { place ≤ length parts.old }
    ensures { OnOk result (parts.new ≡ insert parts.old place part) }
{
    if place == parts.len() {
        return parts.push(part);
    }
    match parts.pop() {
        Some(last) => {
            insert(parts, place, part)?;
            parts.push(last)
        }
        None => unreachable!(),
    }
}

/// Puts a part among others by its instance.
pub(crate) fn add_part(parts: &mut Parts, part: Item) -> Result<(), AllocError>
    ensures { OnOk result (parts.new ≡ with_part part parts.old) }
{
    let place = place_for(&part, parts.as_slice());
    insert(parts, place, part)
}
