//! The parts of a graph file, and how each is read from JSON.

ghost use Rattle.std.specs.Prelude.{◌≡◌, ℕ, List, All, IfOk, FitsSigned};
ghost use Rattle.std.specs.Int.{w32, w64};
ghost use Rattle.std.specs.Str.{IsUtf8};
ghost use Rattle.graph_file.specs.Writable.{FitsBits};
ghost use Rattle.serde_json.specs.Data.{Data};
ghost use Rattle.serde_json.specs.View.{view, items_view};
ghost use Rattle.graph_file.specs.Found.{Found, Tells, under};
ghost use Rattle.graph_file.specs.Forms.{name_form, number_form, int_form, long_form, bool_form, list_form, items_form};

use crate::fault::Fault;
use sdg_base::Name;
use serde_json::Value;
use sqlite_items::Items;
use std::alloc::Global;

/// A part of a graph file.
pub(crate) trait Form: Sized {
    ghost form: { Data → Found Self };

    ghost is_writable: { Self → Type 0 };

    /// Reads it; a misfit has the path below it where its form first fails.
    fn read(alloc: Global, value: &Value) -> Result<Self, Fault>
        ensures told { Tells (form (view value.now)) result }
        ensures made { IfOk result is_writable };
}

/// Reads a part that stands at a key or an index of another one.
pub(crate) fn part<T: Form>(alloc: Global, value: &Value, step: &str) -> Result<T, Fault>
    ensures told { Tells (under step.now (T.form (view value.now))) result }
    ensures made { IfOk result T.is_writable }
{
    match T::read(alloc, value) {
        Ok(thing) => Ok(thing),
        Err(fault) => Err(fault.under(alloc, step)),
    }
}

impl Form for Items<u8> {
    ghost form = { name_form };

    ghost is_writable = { IsUtf8 };

    fn read(alloc: Global, value: &Value) -> Result<Items<u8>, Fault> {
        match value {
            Value::String(text) => Ok(Items::from_slice(alloc, text.as_str().as_bytes())?),
            _ => Err(Fault::here(alloc)),
        }
    }
}

impl Form for u32 {
    ghost form = { number_form 32 };

    ghost is_writable = { FitsBits 32 };

    fn read(alloc: Global, value: &Value) -> Result<u32, Fault> {
        match value.as_u64() {
            Some(number) if number < 1 << 32 => Ok(number as u32),
            _ => Err(Fault::here(alloc)),
        }
    }
}

impl Form for u16 {
    ghost form = { number_form 16 };

    ghost is_writable = { FitsBits 16 };

    fn read(alloc: Global, value: &Value) -> Result<u16, Fault> {
        match value.as_u64() {
            Some(number) if number < 1 << 16 => Ok(number as u16),
            _ => Err(Fault::here(alloc)),
        }
    }
}

impl Form for i32 {
    ghost form = { int_form };

    ghost is_writable = { FitsSigned w32 };

    fn read(alloc: Global, value: &Value) -> Result<i32, Fault> {
        match value.as_i64() {
            Some(number) => {
                if number < -2_147_483_648 || 2_147_483_647 < number {
                    return Err(Fault::here(alloc));
                }
                Ok(number as i32)
            }
            None => Err(Fault::here(alloc)),
        }
    }
}

impl Form for i64 {
    ghost form = { long_form };

    ghost is_writable = { FitsSigned w64 };

    fn read(alloc: Global, value: &Value) -> Result<i64, Fault> {
        match value.as_i64() {
            Some(number) => Ok(number),
            None => Err(Fault::here(alloc)),
        }
    }
}

impl Form for bool {
    ghost form = { bool_form };

    ghost is_writable = { λ _. Unit {0} };

    fn read(alloc: Global, value: &Value) -> Result<bool, Fault> {
        match value.as_bool() {
            Some(truth) => Ok(truth),
            None => Err(Fault::here(alloc)),
        }
    }
}

impl<T: Form + Drop> Form for Items<T> {
    ghost form = { list_form T.form };

    ghost is_writable = { All T.is_writable };

    fn read(alloc: Global, value: &Value) -> Result<Items<T>, Fault> {
        match value {
            Value::Array(list) => items(alloc, list.as_slice()),
            _ => Err(Fault::here(alloc)),
        }
    }
}

/// Reads the members of a list.
fn items<T: Form + Drop>(alloc: Global, values: &[Value]) -> Result<Items<T>, Fault>
    ensures told { Tells (items_form T.form 0 (items_view values.now)) result }
    ensures made { IfOk result (All T.is_writable) }
{
    let mut things = Items::new(alloc);
    for value in values {
        match T::read(alloc, value) {
            Ok(thing) => things.push(thing)?,
            Err(fault) => return Err(fault.at(alloc, things.len())),
        }
    }
    Ok(things)
}
