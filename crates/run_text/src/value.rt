//! The words of a call as values.

ghost use Rattle.std.specs.Prelude.{◌≡◌, ◌≢◌, ◌≤◌, ◌==◌, ◌+◌, ◌++◌, ℕ, ℤ, List, length, drop, map, codes, All, FitsSigned, IfOk, IfErr, MatchOption};
ghost use Rattle.std.specs.Option.{option_copied};
ghost use Rattle.std.specs.List.{slice_split, AllZip};
ghost use Rattle.std.specs.Fmt.{signed_decimal};
ghost use Rattle.std.specs.Int.{w64};
ghost use Rattle.run_text.specs.Lines.{words};
ghost use Rattle.run_text.specs.Values.{Fits, value_text};
ghost use Rattle.run_text.specs.Reading.{IsValueOf, AreElements, IsMisfit};

use crate::entrance::ValueType;
use crate::error::{CallRule, LineError};
use crate::number::{int_of, long_of};
use crate::part::cut;
use sdg_base::{Longs, Val, Vals};
use sqlite_items::Items;
use std::alloc::{AllocError, Global};

/// The most elements of a vector.
const MOST_ELEMENTS: usize = 4096;

/// The values that the words of a line behind the first write, one for each parameter.
pub(crate) fn values_of(
    alloc: Global,
    parameters: &[ValueType],
    line: &[u8],
) -> Result<Vals, LineError>
    requires { length (words line.now) ≡ length parameters.now + 1 }
    ensures found { IfOk result (λ values. AllZip Fits parameters.now values × (map value_text values ≡ drop 1 (words line.now))) }
    ensures bad { IfErr result (IsMisfit parameters.now (drop 1 (words line.now))) }
{
    let mut values = Items::new(alloc);
    let (_, mut later) = cut(line, b' ');
    for parameter in parameters {
        let Some(rest) = later else {
            unreachable!();
        };
        let (word, more) = cut(rest, b' ');
        let Some(value) = value_of(alloc, *parameter, word)? else {
            return Err(LineError::Breaks(CallRule::Value));
        };
        values.push(value)?;
        later = more;
    }
    Ok(values)
}

/// The value of a type that a word writes, where it writes one.
fn value_of(alloc: Global, parameter: ValueType, word: &[u8]) -> Result<Option<Val>, AllocError>
    ensures { IfOk result (λ found. IsValueOf parameter word.now found) }
{
    match parameter {
        ValueType::Int => Ok(int_value(word)),
        ValueType::Long => Ok(long_value(word)),
        ValueType::Boolean => Ok(boolean_value(word)),
        ValueType::Vector => vector_value(alloc, word),
    }
}

fn int_value(word: &[u8]) -> Option<Val>
    ensures { IsValueOf ValueType.Int word.now result }
{
    match int_of(word) {
        Some(n) => Some(Val::Int(n)),
        None => None,
    }
}

fn long_value(word: &[u8]) -> Option<Val>
    ensures { IsValueOf ValueType.Long word.now result }
{
    match long_of(word) {
        Some(n) => Some(Val::Long(n)),
        None => None,
    }
}

fn boolean_value(word: &[u8]) -> Option<Val>
    ensures { IsValueOf ValueType.Boolean word.now result }
{
    match word {
        b"true" => Some(Val::Bool(true)),
        b"false" => Some(Val::Bool(false)),
        _ => None,
    }
}

fn vector_value(alloc: Global, word: &[u8]) -> Result<Option<Val>, AllocError>
    ensures { IfOk result (λ found. IsValueOf ValueType.Vector word.now found) }
{
    let Some(inner) = between_brackets(word) else {
        return Ok(None);
    };
    if inner.is_empty() {
        return Ok(Some(Val::Vector(Items::new(alloc))));
    }
    match elements_of(alloc, inner)? {
        Some(elements) => Ok(Some(Val::Vector(elements))),
        None => Ok(None),
    }
}

/// What stands between the brackets of a word.
fn between_brackets(word: &[u8]) -> Option<&[u8]>
    ensures { MatchOption result ((inner : List ℕ) → codes "[" ++ inner ++ codes "]" ≢ word.now) (λ inner. codes "[" ++ inner.now ++ codes "]" ≡ word.now) }
{
    match word {
        [b'[', inner @ .., b']'] => Some(inner),
        _ => None,
    }
}

/// The elements that the bytes write, one or more with a comma between each two.
fn elements_of(alloc: Global, bytes: &[u8]) -> Result<Option<Longs>, AllocError>
    ensures { IfOk result (λ found. AreElements (slice_split (λ b. b == 44) bytes.now) found) }
{
    let mut elements = Items::new(alloc);
    let mut rest = bytes;
    loop {
        let (element, later) = cut(rest, b',');
        let Some(n) = long_of(element) else {
            return Ok(None);
        };
        if elements.len() == MOST_ELEMENTS {
            return Ok(None);
        }
        elements.push(n)?;
        let Some(more) = later else {
            return Ok(Some(elements));
        };
        rest = more;
    }
}
