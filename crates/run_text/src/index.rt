//! The entry methods and the fields by their names.

ghost use Rattle.std.specs.Prelude.{◌≡◌, ◌≢◌, ◌^◌, ◌≤◌, length, All, IfOk, MatchOption};
ghost use Rattle.run_text.specs.Calls.{IsMethod};
ghost use Rattle.run_text.specs.Index.{index_at, IsIndex, IsFieldIndex};
ghost use Rattle.run_text.specs.HistoryReading.{IsIndexOfFields};
ghost use Rattle.run_text.specs.Histories.{IsNamedPartial};
ghost use Rattle.std.specs.Prelude.{ℕ};

use crate::entrance::Entrance;
use crate::field::Field;
use sdg_base::Name;
use std::alloc::{AllocError, Global};
use std::collections::BTreeMap;

/// The place of each name's first entry method.
pub(crate) fn index_of(
    alloc: Global,
    entrances: &[Entrance],
) -> Result<BTreeMap<&[u8], u16>, AllocError>
    requires { length entrances.now ≤ 2 ^ 16 }
    ensures { IfOk result (IsIndex entrances.now) }
{
    let mut index = BTreeMap::new(alloc);
    for (number, entrance) in entrances.iter().enumerate() {
        let name = entrance.name.as_slice();
        if !index.contains_key(name) {
            index.insert(name, number as u16)?;
        }
    }
    Ok(index)
}

/// The first entry method of a name.
pub(crate) fn method_of<'a>(
    entrances: &'a [Entrance],
    index: &BTreeMap<&[u8], u16>,
    name: &[u8],
) -> Option<&'a Entrance>
    requires { IsIndex entrances.now index.now }
    ensures { MatchOption result (All (λ entrance. entrance.name ≢ name.now) entrances.now) (λ found. (place : ℕ) × IsMethod entrances.now place found.now × (found.now.name ≡ name.now)) }
{
    let place = number_in(index, name)?;
    Some(&entrances[place as usize])
}

/// The number of each name's first field.
pub(crate) fn field_index_of(
    alloc: Global,
    fields: &[Name],
) -> Result<BTreeMap<&[u8], u16>, AllocError>
    requires { length fields.now ≤ 2 ^ 16 }
    ensures { IfOk result (IsFieldIndex fields.now) }
{
    let mut index = BTreeMap::new(alloc);
    for (number, field) in fields.iter().enumerate() {
        let name = field.as_slice();
        if !index.contains_key(name) {
            index.insert(name, number as u16)?;
        }
    }
    Ok(index)
}

/// The number of each name's first field, whether it is partial or not.
pub(crate) fn class_index_of(
    alloc: Global,
    fields: &[Field],
) -> Result<BTreeMap<&[u8], u16>, AllocError>
    requires { length fields.now ≤ 2 ^ 16 }
    ensures { IfOk result (IsIndexOfFields fields.now) }
{
    let mut index = BTreeMap::new(alloc);
    for (number, field) in fields.iter().enumerate() {
        let name = field.name.as_slice();
        if !index.contains_key(name) {
            index.insert(name, number as u16)?;
        }
    }
    Ok(index)
}

/// The number of the partial field of a name.
pub(crate) fn partial_of(fields: &[Field], index: &BTreeMap<&[u8], u16>, name: &[u8]) -> Option<u16>
    requires { IsIndexOfFields fields.now index.now }
    ensures { MatchOption result ((field : ℕ) → ¬ IsNamedPartial fields.now name.now field) (IsNamedPartial fields.now name.now) }
{
    let number = number_in(index, name)?;
    if !fields[number as usize].partial {
        return None;
    }
    Some(number)
}

/// What an index has for a name.
pub(crate) fn number_in(index: &BTreeMap<&[u8], u16>, name: &[u8]) -> Option<u16>
    ensures { result ≡ index_at index.now name.now }
{
    index.get(name).copied()
}
