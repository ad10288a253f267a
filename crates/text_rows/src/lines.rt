//! What is said of files of calls and schedules.

use crate::texts::bytes_of;
use run_text::{Entrance, TextError, ValueType, read_calls, read_schedule};
use sdg_base::Name;
use sqlite_items::Items;
use std::alloc::{AllocError, Global};

/// A text that no file may have.
const LONG: TextError = TextError::Bad { line: 0, rule: 0 };

fn entrance(
    alloc: Global,
    number: u16,
    name: &[u8],
    parameters: &[ValueType],
) -> Result<Entrance, AllocError> {
    Ok(Entrance {
        number,
        name: Items::from_slice(alloc, name)?,
        parameters: Items::from_slice(alloc, parameters)?,
    })
}

/// The entry methods of the rows: `get(long)`, `put(long, int)`, `set(Vector, boolean)` and `size()`.
fn entrances(alloc: Global) -> Result<[Entrance; 4], AllocError> {
    Ok([
        entrance(alloc, 1, b"get", &[ValueType::Long])?,
        entrance(alloc, 3, b"put", &[ValueType::Long, ValueType::Int])?,
        entrance(alloc, 4, b"set", &[ValueType::Vector, ValueType::Boolean])?,
        entrance(alloc, 6, b"size", &[])?,
    ])
}

fn shown(
    alloc: Global,
    answer: Result<usize, TextError>,
    what: &str,
) -> Result<String, AllocError> {
    match answer {
        Ok(count) => format!(in alloc; "{count} {what}"),
        Err(error) => format!(in alloc; "{error}"),
    }
}

fn count_calls(alloc: Global, text: &[u8]) -> Result<usize, TextError> {
    if text.len() > 100_000_000 {
        return Err(LONG);
    }
    let entrances = entrances(alloc).map_err(|_| TextError::Memory)?;
    Ok(read_calls(alloc, &entrances, text)?.len())
}

/// How many calls a text has, or the line and the rule that it breaks.
pub(crate) fn calls(alloc: Global, text: &str) -> Result<String, AllocError> {
    let bytes = bytes_of(alloc, text)?;
    shown(alloc, count_calls(alloc, &bytes), "calls")
}

/// The fields of the rows.
fn fields(alloc: Global) -> Result<[Name; 2], AllocError> {
    Ok([
        Items::from_slice(alloc, b"t")?,
        Items::from_slice(alloc, b"next")?,
    ])
}

fn count_events(alloc: Global, text: &[u8]) -> Result<usize, TextError> {
    if text.len() > 100_000_000 {
        return Err(LONG);
    }
    let fields = fields(alloc).map_err(|_| TextError::Memory)?;
    Ok(read_schedule(alloc, &fields, text)?.events.len())
}

/// How many events a schedule has, or the line and the rule that it breaks.
pub(crate) fn schedule(alloc: Global, text: &str) -> Result<String, AllocError> {
    let bytes = bytes_of(alloc, text)?;
    shown(alloc, count_events(alloc, &bytes), "events")
}

/// The same of a schedule with a header before these lines.
pub(crate) fn events(alloc: Global, text: &str) -> Result<String, AllocError> {
    let text = format!(in alloc; "sdg nodes 4 slots 1 stores 2 width 3\\n{text}")?;
    schedule(alloc, text.as_str())
}
