//! A text is read, and its history is stepped.

ghost use Rattle.std.specs.Prelude.{◌≡◌, ◌≤◌, ◌<◌, ◌^◌, ◌⊎◌, ℕ, length, IfOk, IfErr, MatchResult};
ghost use Rattle.std.specs.Str.Lines.{lines};
ghost use Rattle.history_run.specs.declared.replayed.Replayed.{Replayed as ReplayedOf};
ghost use Rattle.history_run.specs.Replays.{Replays, IsReplayed, IsIllegalLine, IsBrokenLine, illegal_rule};

use crate::replayed::Replayed;
use crate::steps::stepped;
use access_blocks::Program;
use run_text::{Field, TextError, lines_before, read_history};
use sdg_base::Calls;
use std::alloc::Global;

/// Reads the history of a text, as `run_text::read_history` does, and steps the annotated source of a program along it. The
/// fields are those of the program by number, and the calls are of its entry methods. Each partial field has at the start as
/// many empty instances as the header of the text says, and one where there is no header.
///
/// # Errors
/// At the first line that breaks a rule: `TextError::Bad` with the number of the line, from 1, and that of the rule. It is
/// `ILLEGAL` where the line's step is not its call's next, as the lines before it leave the source; else it is the least of the
/// rules of `run_text::HistoryRule` that the line breaks. `TextError::Memory` for want of memory.
pub fn replay(
    alloc: Global,
    program: &Program,
    calls: &Calls,
    fields: &[Field],
    bytes: &[u8],
) -> Result<Replayed, TextError>
    requires few_calls { length calls.now ≤ 65536 }
    requires few_fields { length fields.now ≤ 2 ^ 16 }
    requires short { length bytes.now < 2 ^ 32 }

    // Each answer but want of memory has its cause.
    ensures found { Replays program.now calls.now fields.now (lines bytes.now) result }

    // Each cause has its answer, unless memory is short.
    ensures complete { (replayed : ReplayedOf) → IsReplayed program.now calls.now fields.now (lines bytes.now) replayed
        → MatchResult result (λ found. found ≡ replayed) (λ error. error ≡ TextError.Memory) }
    ensures illegal { (line : ℕ) → IsIllegalLine program.now calls.now fields.now (lines bytes.now) line
        → MatchResult result (λ _. ⊥) (λ error. (error ≡ TextError.Bad line illegal_rule) ⊎ (error ≡ TextError.Memory)) }
    ensures broken { (line rule : ℕ) → IsBrokenLine program.now calls.now fields.now (lines bytes.now) line rule
        → MatchResult result (λ _. ⊥) (λ error. (error ≡ TextError.Bad line rule) ⊎ (error ≡ TextError.Memory)) }
{
    answer(alloc, program, calls, fields, bytes)
}

/// What a text gives, or the first line that breaks a rule.
fn answer(
    alloc: Global,
    program: &Program,
    calls: &Calls,
    fields: &[Field],
    bytes: &[u8],
) -> Result<Replayed, TextError>
    requires few_calls { length calls.now ≤ 65536 }
    requires few_fields { length fields.now ≤ 2 ^ 16 }
    requires short { length bytes.now < 2 ^ 32 }
    ensures { Replays program.now calls.now fields.now (lines bytes.now) result }
{
    let count = calls.len() as u32;
    match read_history(alloc, fields, count, bytes) {
        Ok(history) => stepped(alloc, program, calls, &history),
        Err(TextError::Memory) => Err(TextError::Memory),
        Err(TextError::Bad { line, rule }) => {
            // An illegal step of a line before this one comes first.
            let before = read_history(alloc, fields, count, lines_before(bytes, line))?;
            stepped(alloc, program, calls, &before)?;
            Err(TextError::Bad { line, rule })
        }
    }
}
