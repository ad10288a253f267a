//! The history of a run: a header where there is one, and a step a line.

ghost use Rattle.std.specs.Prelude.{◌≡◌, ◌≤◌, ◌<◌, ◌+◌, ◌^◌, ◌⊎◌, [], ℕ, length, IfOk, IfErr, IfSome, IsErr, IsOkUnless, MatchOption, MatchResult};
ghost use Rattle.std.specs.List.{AllByRecursion};
ghost use Rattle.std.specs.Str.Lines.{lines};
ghost use Rattle.run_text.specs.declared.told.History.{History as HistoryOf};
ghost use Rattle.run_text.specs.declared.error.HistoryRule.{HistoryRule as RuleOf};
ghost use Rattle.run_text.specs.Histories.{told_lines, IsHistory, Fits, HaveRoom, BreaksAt, IsFirstHistoryBreak, IsHistoryRefusal, HasHistoryBefore};
ghost use Rattle.run_text.specs.HistoryReading.{bad_history_line, IsNextTold, IsBeginning};

use crate::error::{HistoryRule, TextError};
use crate::field::Field;
use crate::index::class_index_of;
use crate::line::{first_line, is_untold};
use crate::opening::opening_of;
use crate::room::{room_at_start, take_step};
use crate::step::step_of;
use crate::told::History;
use sqlite_items::Items;
use std::alloc::Global;

/// Reads the history of a text, in which a class has these fields by number and there are so many calls,
/// from 1. Lines end with LF, CR LF or the end of the text. Those that are empty, that begin with `#` or with
/// the first word of another line of a report (`event`, `drain`, `result`, `unfinished` or `end`) and a space
/// tell nothing, so that a whole report can be read. The first line that tells something may be a header,
/// `sdg nodes N slots P stores M width W` with N from 1 to 32, P from 1 to 64, M from 1 to 8 and W from 1 to
/// 64; without one each partial field has one instance at the start. Each other line is a step: `step begin C`,
/// `step block C`, `step block C I`, `step visit C I` or `step join C` of the call C, with an instance I, from 0,
/// of a partial field, or `step grow F`, which gives the partial field F one instance more. A line is refused by
/// the first of the rules in `HistoryRule` that it breaks. Whether each step is its call's next is not looked at.
pub fn read_history(
    alloc: Global,
    fields: &[Field],
    calls: u32,
    bytes: &[u8],
) -> Result<History, TextError>
    requires few { length fields.now ≤ 2 ^ 16 }
    requires short { length bytes.now < 2 ^ 32 }

    // What is read is the history of the lines. Its width is in range, its calls and fields exist, each instance
    // and each growth has room, and each step has a line.
    ensures found { IfOk result (IsHistory fields.now calls (lines bytes.now)) }
    ensures range { IfOk result (λ h. (1 ≤ h.width) × (h.width ≤ 64)) }
    ensures fits { IfOk result (λ h. AllByRecursion (Fits fields.now calls) h.steps) }
    ensures room { IfOk result (λ h. HaveRoom fields.now h.width h.steps) }
    ensures numbered { IfOk result (λ h. length h.lines ≡ length h.steps) }

    // What is refused is the first line that breaks a rule, by the least rule that it breaks.
    // The lines before it have a history, so that they are read without a refusal.
    ensures bad { IfErr result (IsHistoryRefusal fields.now calls (lines bytes.now)) }
    ensures before { IfErr result (HasHistoryBefore fields.now calls (lines bytes.now)) }

    // No history is read where a line breaks a rule, and no line is refused where none does.
    ensures broken { (place : ℕ) (rule : RuleOf) → BreaksAt fields.now calls (lines bytes.now) place rule → IsErr result }
    ensures unbroken { ((place : ℕ) (rule : RuleOf) → ¬ BreaksAt fields.now calls (lines bytes.now) place rule) → IsOkUnless result TextError.Memory }

    // There is no other history of the lines, and no other first break.
    ensures only_history { (history : HistoryOf) → IsHistory fields.now calls (lines bytes.now) history → MatchResult result (λ found. found ≡ history) (λ error. error ≡ TextError.Memory) }
    ensures only_bad { (line rule : ℕ) → IsFirstHistoryBreak fields.now calls (lines bytes.now) line rule → MatchResult result (λ _. ⊥) (λ error. (error ≡ TextError.Bad line rule) ⊎ (error ≡ TextError.Memory)) }
{
    history_of(alloc, fields, calls, bytes)
}

/// The history of a text, or the first line that breaks a rule.
fn history_of(
    alloc: Global,
    fields: &[Field],
    calls: u32,
    bytes: &[u8],
) -> Result<History, TextError>
    requires few { length fields.now ≤ 2 ^ 16 }
    requires short { length bytes.now < 2 ^ 32 }
    ensures found { IfOk result (IsHistory fields.now calls (lines bytes.now)) }
    ensures bad { IfErr result (IsHistoryRefusal fields.now calls (lines bytes.now)) }
{
    let index = class_index_of(alloc, fields)?;
    let (width, passed, mut rest) = beginning(bytes);
    let mut room = room_at_start(alloc, fields, width)?;
    let mut steps = Items::new(alloc);
    let mut numbers = Items::new(alloc);
    let mut number = passed;
    while let Some((line, more)) = first_line(rest) {
        rest = more;
        number += 1;
        if is_untold(line) {
            continue;
        }
        match step_of(fields, &index, calls, &room, line) {
            Ok(step) => {
                take_step(fields, &mut room, step);
                steps.push(step)?;
                numbers.push(number)?;
            }
            Err(rule) => return Err(bad(number, rule)),
        }
    }
    Ok(History {
        width,
        steps,
        lines: numbers,
    })
}

/// The error of a text whose line of this number breaks a rule.
fn bad(line: u32, rule: HistoryRule) -> TextError
    ensures { result ≡ bad_history_line line rule }
{
    TextError::Bad {
        line,
        rule: rule.number(),
    }
}

/// The width at the start, with how many lines stand in front of the steps and what stands behind these.
fn beginning(bytes: &[u8]) -> (u8, u32, &[u8])
    requires { length bytes.now < 2 ^ 32 }
    ensures begun { IsBeginning (lines bytes.now) result.0 result.1 (lines result.2.now) }
    ensures few { result.0 ≤ 64 }
    ensures room { result.1 + length result.2.now ≤ length bytes.now }
{
    let Some((passed, line, more)) = next_told(bytes) else {
        return (1, 0, bytes);
    };
    match opening_of(line) {
        Some(header) => (header.width, passed + 1, more),
        None => (1, 0, bytes),
    }
}

/// The first line of a text that tells something, with how many lines stand before it and what stands
/// behind it.
fn next_told(text: &[u8]) -> Option<(u32, &[u8], &[u8])>
    requires { length text.now < 2 ^ 32 }
    ensures found { MatchOption result (told_lines (lines text.now) ≡ []) (λ next. IsNextTold (lines text.now) next.0 next.1.now (lines next.2.now)) }
    ensures room { IfSome result (λ next. next.0 + 1 + length next.2.now ≤ length text.now) }
{
    let mut rest = text;
    let mut passed = 0u32;
    while let Some((line, more)) = first_line(rest) {
        if !is_untold(line) {
            return Some((passed, line, more));
        }
        rest = more;
        passed += 1;
    }
    None
}
