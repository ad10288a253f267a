//! The schedule of a run: its header, and an event a line.

ghost use Rattle.std.specs.Prelude.{◌≡◌, ◌≤◌, ◌<◌, ◌+◌, ◌^◌, ◌⊎◌, [], ℕ, length, IfOk, IfErr, IfSome, IsErr, IsOkUnless, MatchOption, MatchResult};
ghost use Rattle.std.specs.List.{AllByRecursion};
ghost use Rattle.std.specs.Str.Lines.{lines};
ghost use Rattle.placement.specs.declared.event.Schedule.{Schedule as ScheduleOf};
ghost use Rattle.run_text.specs.declared.error.ScheduleRule.{ScheduleRule as RuleOf};
ghost use Rattle.run_text.specs.Lines.{said_lines};
ghost use Rattle.run_text.specs.Schedules.{IsSchedule, IsInRange, Fits, BreaksAt, IsFirstScheduleBreak, IsScheduleRefusal};
ghost use Rattle.run_text.specs.ScheduleReading.{bad_line, IsNextSaid};

use crate::error::{ScheduleRule, TextError};
use crate::event::event_of;
use crate::header::header_of;
use crate::index::field_index_of;
use crate::line::{first_line, skips};
use placement::Schedule;
use sdg_base::Name;
use sqlite_items::Items;
use std::alloc::Global;

/// Reads the schedule of a text, in which a class has these partitioned fields by number. Lines end with
/// LF, CR LF or the end of the text, and those that are empty or begin with `#` are skipped. The first line is
/// the header, `sdg nodes N slots P stores M width W` with N from 1 to 32, P 1, M from 1 to 8 and W from 1 to
/// 64, and each other line an event: `take T F p`, in which the cell T takes from the cell F or from
/// `caller` with a pick p from 0 to 63, or `sink F`, which commits a result of the cell F. A cell is `in`,
/// `join`, or a slot of a field as `f/0`. A text without lines is a schedule of one node, store, slot and
/// instance without events. A line is refused by the first of the rules in `ScheduleRule` that it breaks.
pub fn read_schedule(alloc: Global, fields: &[Name], bytes: &[u8]) -> Result<Schedule, TextError>
    requires few { length fields.now ≤ 2 ^ 16 }
    requires short { length bytes.now < 2 ^ 32 }

    // What is read is the schedule of the lines. Its numbers are in range, and its ports those of the fields and the header.
    ensures found { IfOk result (IsSchedule fields.now (lines bytes.now)) }
    ensures range { IfOk result (λ s. IsInRange s.header) }
    ensures fits { IfOk result (λ s. AllByRecursion (Fits (length fields.now) s.header.slots) s.events) }

    // What is refused is the first line that breaks a rule, by the least rule that it breaks.
    ensures bad { IfErr result (IsScheduleRefusal fields.now (lines bytes.now)) }

    // No schedule is read where a line breaks a rule, and no line is refused where none does.
    ensures broken { (place : ℕ) (rule : RuleOf) → BreaksAt fields.now (lines bytes.now) place rule → IsErr result }
    ensures unbroken { ((place : ℕ) (rule : RuleOf) → ¬ BreaksAt fields.now (lines bytes.now) place rule) → IsOkUnless result TextError.Memory }

    // There is no other schedule of the lines, and no other first break.
    ensures only_schedule { (schedule : ScheduleOf) → IsSchedule fields.now (lines bytes.now) schedule → MatchResult result (λ found. found ≡ schedule) (λ error. error ≡ TextError.Memory) }
    ensures only_bad { (line rule : ℕ) → IsFirstScheduleBreak fields.now (lines bytes.now) line rule → MatchResult result (λ _. ⊥) (λ error. (error ≡ TextError.Bad line rule) ⊎ (error ≡ TextError.Memory)) }
{
    schedule_of(alloc, fields, bytes)
}

/// The schedule of a text, or the first line that breaks a rule.
fn schedule_of(alloc: Global, fields: &[Name], bytes: &[u8]) -> Result<Schedule, TextError>
    requires few { length fields.now ≤ 2 ^ 16 }
    requires short { length bytes.now < 2 ^ 32 }
    ensures found { IfOk result (IsSchedule fields.now (lines bytes.now)) }
    ensures bad { IfErr result (IsScheduleRefusal fields.now (lines bytes.now)) }
{
    let index = field_index_of(alloc, fields)?;
    let Some((skipped, first, mut rest)) = next_said(bytes) else {
        return Ok(Schedule::by_default(alloc));
    };
    let mut number = skipped + 1;
    let header = match header_of(first) {
        Ok(header) => header,
        Err(rule) => return Err(bad(number, rule)),
    };
    let mut events = Items::new(alloc);
    while let Some((line, more)) = first_line(rest) {
        rest = more;
        number += 1;
        if skips(line) {
            continue;
        }
        match event_of(fields, &index, header.slots, events.len(), line) {
            Ok(event) => events.push(event)?,
            Err(rule) => return Err(bad(number, rule)),
        }
    }
    Ok(Schedule { header, events })
}

/// The error of a text whose line of this number breaks a rule.
fn bad(line: u32, rule: ScheduleRule) -> TextError
    ensures { result ≡ bad_line line rule }
{
    TextError::Bad {
        line,
        rule: rule.number(),
    }
}

/// The first line of a text that isn't skipped, with how many lines are skipped before it and what stands
/// behind it.
fn next_said(text: &[u8]) -> Option<(u32, &[u8], &[u8])>
    requires { length text.now < 2 ^ 32 }
    ensures found { MatchOption result (said_lines (lines text.now) ≡ []) (λ next. IsNextSaid (lines text.now) next.0 next.1.now (lines next.2.now)) }
    ensures room { IfSome result (λ next. next.0 + 1 + length next.2.now ≤ length text.now) }
{
    let mut rest = text;
    let mut skipped = 0u32;
    while let Some((line, more)) = first_line(rest) {
        if !skips(line) {
            return Some((skipped, line, more));
        }
        rest = more;
        skipped += 1;
    }
    None
}
