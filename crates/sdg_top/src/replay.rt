//! The answer of `replay`.

ghost use Rattle.std.specs.Prelude.{◌≡◌, ◌≤◌, List, length, IfOk};
ghost use Rattle.std.specs.Str.Lines.{lines};
ghost use Rattle.sdg_base.specs.declared.call.Call.{Call};
ghost use Rattle.java_tree.specs.declared.tree.Class.{Class};
ghost use Rattle.history_run.specs.declared.replayed.Replayed.{Replayed as ReplayedOf};
ghost use Rattle.history_run.specs.Replays.{IsReplayed};
ghost use Rattle.run_text.specs.Calls.{AreCalls};
ghost use Rattle.sdg_top.specs.Accepted.{program_of};
ghost use Rattle.sdg_top.specs.Called.{IsCalled};
ghost use Rattle.sdg_top.specs.Entrances.{entrances_of, fields_of};
ghost use Rattle.sdg_top.specs.Due.{DueForReplay, DueForHistory};

use crate::answer::{Answer, refuse_text};
use crate::called::Called;
use crate::lines::InputText;
use crate::reply::print_replay;
use crate::status::Status;
use history_run::replay;
use run_text::{TextError, read_calls};
use sdg_base::Calls;
use std::alloc::{AllocError, Global};

/// What a text of a history is due, for calls of an accepted class.
fn answer_history(
    alloc: Global,
    called: &Called,
    calls: &Calls,
    text: &[u8],
) -> Result<Answer, AllocError>
    requires few_calls { length calls.now ≤ 65536 }
    requires few_fields { length called.now.fields.items ≤ 65536 }
    requires size { length text.now ≤ 16777216 }
    ensures due { IfOk result (λ a. DueForHistory called.now.program calls.now called.now.fields.items text.now a.status a.text) }
    ensures complete { (replayed : ReplayedOf) → IsReplayed called.now.program calls.now called.now.fields.items (lines text.now) replayed → IfOk result (λ a. a.status ≡ Status.Done) }
{
    match replay(
        alloc,
        &called.program,
        calls,
        called.fields.as_slice(),
        text,
    ) {
        Ok(replayed) => Ok(Answer {
            status: Status::Done,
            text: print_replay(alloc, replayed.results.as_slice(), replayed.steps)?,
        }),
        Err(TextError::Bad { line, rule }) => refuse_text(alloc, InputText::History, line, rule),
        Err(TextError::Memory) => Err(AllocError),
    }
}

/// What texts of calls and of a history are due under `replay`, for an accepted class.
pub(crate) fn answer_replay(
    alloc: Global,
    called: &Called,
    calls_text: &[u8],
    history_text: &[u8],
) -> Result<Answer, AllocError>
    requires few_entrances { length called.now.entrances.items ≤ 65536 }
    requires few_fields { length called.now.fields.items ≤ 65536 }
    requires calls_size { length calls_text.now ≤ 16777216 }
    requires history_size { length history_text.now ≤ 16777216 }
    ensures due { (class : Class) → IsCalled class called.now → IfOk result (λ a. DueForReplay class calls_text.now history_text.now a.status a.text) }
    ensures complete { (class : Class) (calls : List Call) (replayed : ReplayedOf) → IsCalled class called.now → AreCalls (entrances_of class) (lines calls_text.now) calls
        → IsReplayed (program_of class) calls (fields_of class) (lines history_text.now) replayed → IfOk result (λ a. a.status ≡ Status.Done) }
{
    match read_calls(alloc, called.entrances.as_slice(), calls_text) {
        Ok(calls) => answer_history(alloc, called, &calls, history_text),
        Err(TextError::Bad { line, rule }) => refuse_text(alloc, InputText::Calls, line, rule),
        Err(TextError::Memory) => Err(AllocError),
    }
}
