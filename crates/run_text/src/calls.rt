//! The calls of a run, one a line.

ghost use Rattle.std.specs.Prelude.{◌≡◌, ◌≢◌, ◌^◌, ◌<◌, ◌≤◌, ◌⊎◌, ◌↔◌, ℕ, List, length, take, All, slice_get, IsTrue, IfOk, IfErr, IsErr, OnOk, IsOkUnless, IsSomeAnd, MatchOption, MatchResult};
ghost use Rattle.std.specs.List.{AllZip};
ghost use Rattle.std.specs.Str.Lines.{lines};
ghost use Rattle.sdg_base.specs.declared.call.Call.{Call as CallOf};
ghost use Rattle.run_text.specs.declared.error.CallRule.{CallRule as RuleOf};
ghost use Rattle.run_text.specs.Lines.{said_lines};
ghost use Rattle.run_text.specs.Calls.{CallFits, IsCall, IsWritten, AreCalls, BreaksAt, IsFirstBreak, IsRefusal};
ghost use Rattle.run_text.specs.Reading.{IsLeastBreak};
ghost use Rattle.run_text.specs.Index.{IsIndex};

use crate::entrance::Entrance;
use crate::error::{CallRule, LineError, TextError};
use crate::index::{index_of, method_of};
use crate::line::{first_line, is_well_spelled, skips, spaces};
use crate::part::cut;
use crate::value::values_of;
use sdg_base::{Call, Calls};
use sqlite_items::Items;
use std::alloc::Global;
use std::collections::BTreeMap;

/// The most calls of a run.
const MOST_CALLS: usize = 65536;

/// Reads the calls of a text. Lines end with LF, CR LF or the end of the text, and those that are
/// empty or begin with `#` are skipped. A call is the name of an entry method and its arguments, with
/// one space between each two words: numbers in decimal digits, `true`, `false`, and a vector as `[1,-2]`
/// or `[]`. A line is refused by the first of the rules in `CallRule` that it breaks.
pub fn read_calls(alloc: Global, entrances: &[Entrance], bytes: &[u8]) -> Result<Calls, TextError>
    requires few { length entrances.now ≤ 2 ^ 16 }
    requires short { length bytes.now < 2 ^ 32 }

    // What is read are the calls of the lines, one for one, and so they are written.
    ensures found { IfOk result (AreCalls entrances.now (lines bytes.now)) }
    ensures written { IfOk result (AllZip (IsWritten entrances.now) (said_lines (lines bytes.now))) }
    ensures fits { IfOk result (All (CallFits entrances.now)) }

    // What is refused is the first line that breaks a rule, by the least rule that it breaks.
    ensures bad { IfErr result (IsRefusal entrances.now (lines bytes.now)) }

    // No calls are read where a line breaks a rule, and no line is refused where none does.
    ensures broken { (place : ℕ) (rule : RuleOf) → BreaksAt entrances.now (lines bytes.now) place rule → IsErr result }
    ensures unbroken { ((place : ℕ) (rule : RuleOf) → ¬ BreaksAt entrances.now (lines bytes.now) place rule) → IsOkUnless result TextError.Memory }

    // There are no other calls of the lines, and no other first break.
    ensures only_calls { (calls : List CallOf) → AreCalls entrances.now (lines bytes.now) calls → MatchResult result (λ found. found ≡ calls) (λ error. error ≡ TextError.Memory) }
    ensures only_bad { (line rule : ℕ) → IsFirstBreak entrances.now (lines bytes.now) line rule → MatchResult result (λ _. ⊥) (λ error. (error ≡ TextError.Bad line rule) ⊎ (error ≡ TextError.Memory)) }
{
    calls_of(alloc, entrances, bytes)
}

/// The calls of a text, or the first line that breaks a rule.
fn calls_of(alloc: Global, entrances: &[Entrance], bytes: &[u8]) -> Result<Calls, TextError>
    requires few { length entrances.now ≤ 2 ^ 16 }
    requires short { length bytes.now < 2 ^ 32 }
    ensures found { IfOk result (AreCalls entrances.now (lines bytes.now)) }
    ensures bad { IfErr result (IsRefusal entrances.now (lines bytes.now)) }
{
    let index = index_of(alloc, entrances)?;
    let mut calls = Items::new(alloc);
    let mut rest = bytes;
    let mut number = 0u32;
    while let Some((line, more)) = first_line(rest) {
        rest = more;
        number += 1;
        if skips(line) {
            continue;
        }
        match next_call(alloc, entrances, &index, calls.len(), line) {
            Ok(call) => calls.push(call)?,
            Err(error) => return Err(error.at(number)),
        }
    }
    Ok(calls)
}

/// The call of a line before which there are so many calls.
fn next_call(
    alloc: Global,
    entrances: &[Entrance],
    index: &BTreeMap<&[u8], u16>,
    before: usize,
    line: &[u8],
) -> Result<Call, LineError>
    requires { IsIndex entrances.now index.now }
    ensures found { IfOk result (IsCall entrances.now line.now) }
    ensures room { OnOk result (before < 2 ^ 16) }
    ensures bad { IfErr result (IsLeastBreak entrances.now before line.now) }
{
    let call = call_of(alloc, entrances, index, line)?;
    if before >= MOST_CALLS {
        return Err(LineError::Breaks(CallRule::Limit));
    }
    Ok(call)
}

/// The call of a line.
fn call_of(
    alloc: Global,
    entrances: &[Entrance],
    index: &BTreeMap<&[u8], u16>,
    line: &[u8],
) -> Result<Call, LineError>
    requires { IsIndex entrances.now index.now }
    ensures found { IfOk result (IsCall entrances.now line.now) }
    ensures bad { IfErr result (λ error. (before : ℕ) → IsLeastBreak entrances.now before line.now error) }
{
    if !is_well_spelled(line) {
        return Err(LineError::Breaks(CallRule::Spelling));
    }
    let (name, _) = cut(line, b' ');
    let Some(entrance) = method_of(entrances, index, name) else {
        return Err(LineError::Breaks(CallRule::Method));
    };
    if spaces(line) != entrance.parameters.len() {
        return Err(LineError::Breaks(CallRule::Count));
    }
    let args = values_of(alloc, entrance.parameters.as_slice(), line)?;
    Ok(Call {
        method: entrance.number,
        args,
    })
}
