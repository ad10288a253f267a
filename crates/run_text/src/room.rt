//! How many instances the partial fields have at a line of a history.

ghost use Rattle.std.specs.Prelude.{◌≡◌, ◌<◌, ◌≤◌, ◌+◌, ◌↔◌, ℕ, List, length, replicate, slice_set, IsTrue, IfOk};
ghost use Rattle.run_text.specs.declared.field.Field.{Field as FieldOf};
ghost use Rattle.run_text.specs.Histories.{grown, width_of, IsPartial, HasRoom, Fits};
ghost use Rattle.run_text.specs.HistoryReading.{IsRoom};

use crate::field::Field;
use sdg_base::{Step, Widths};
use sqlite_items::Items;
use std::alloc::{AllocError, Global};

/// By field its number of instances, where it is partial, and the greatest of these numbers; 0 where no
/// field is partial.
#[derive(Drop)]
pub(crate) struct Room {
    pub(crate) widths: Widths,
    pub(crate) greatest: u8,
}

/// The room where each partial field has so many instances.
pub(crate) fn room_at_start(alloc: Global, fields: &[Field], width: u8) -> Result<Room, AllocError>
    requires few { width ≤ 64 }
    ensures room { IfOk result (IsRoom fields.now) }
    ensures widths { IfOk result (λ room. room.widths ≡ replicate (length fields.now) width) }
{
    let widths = vec![in alloc; width; fields.len()]?;
    let greatest = if has_partial(fields) { width } else { 0 };
    Ok(Room {
        widths: Items::from_vec(widths),
        greatest,
    })
}

/// Whether a field is partial.
fn has_partial(fields: &[Field]) -> bool
    ensures { IsTrue result ↔ ((field : ℕ) × IsPartial fields.now field) }
{
    fields.iter().any(|field| field.partial)
}

/// The room behind a step.
pub(crate) fn take_step(fields: &[Field], room: &mut Room, step: Step)
    requires room { IsRoom fields.now room.old }
    requires step { HasRoom fields.now room.old.widths step }
    requires partial { (calls : ℕ) × Fits fields.now calls step }
    ensures room { IsRoom fields.now room.new }
    ensures widths { room.new.widths ≡ grown room.old.widths step }
{
    match step {
        Step::Grow { field } => grow(fields, room, field),
        Step::Begin { .. } | Step::Block { .. } | Step::Visit { .. } | Step::Join { .. } => {}
    }
}

/// One instance of a partial field more.
fn grow(fields: &[Field], room: &mut Room, field: u16)
    requires room { IsRoom fields.now room.old }
    requires below { width_of room.old.widths field < 64 }
    requires partial { IsPartial fields.now field }
    ensures room { IsRoom fields.now room.new }
    ensures widths { room.new.widths ≡ slice_set room.old.widths field (width_of room.old.widths field + 1) }
{
    let width = room.widths.as_slice()[field as usize] + 1;
    room.widths.set(field as usize, width);
    if room.greatest < width {
        room.greatest = width;
    }
}
