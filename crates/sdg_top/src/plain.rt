//! The answer of `plain`.

ghost use Rattle.std.specs.Prelude.{◌≡◌, ◌≤◌, List, length, IfOk};
ghost use Rattle.std.specs.Str.Lines.{lines};
ghost use Rattle.sdg_base.specs.declared.call.Call.{Call};
ghost use Rattle.java_tree.specs.declared.tree.Class.{Class};
ghost use Rattle.run_text.specs.Calls.{AreCalls};
ghost use Rattle.sdg_top.specs.Called.{IsCalled};
ghost use Rattle.sdg_top.specs.Entrances.{entrances_of};
ghost use Rattle.sdg_top.specs.Due.{DueForPlain};
ghost use Rattle.sdg_top.specs.Accepted.{program_of};
ghost use Rattle.sdg_top.specs.Replies.{plain_text};
ghost use Rattle.plain_java.specs.Plain as plain_java;

use crate::answer::{Answer, refuse_text};
use crate::called::Called;
use crate::lines::InputText;
use crate::reply::print_plain;
use crate::status::Status;
use access_blocks::Program;
use plain_java::plain;
use run_text::{TextError, read_calls};
use sdg_base::Calls;
use std::alloc::{AllocError, Global};

/// How calls end that run as plain Java, as a text.
fn reply(alloc: Global, program: &Program, calls: &Calls) -> Result<Answer, AllocError>
    ensures status { IfOk result (λ a. a.status ≡ Status.Done) }
    ensures text { IfOk result (λ a. a.text ≡ plain_text (plain_java.plain program.now calls.now)) }
{
    let outcomes = plain(alloc, program, calls)?;
    Ok(Answer {
        status: Status::Done,
        text: print_plain(alloc, outcomes.as_slice())?,
    })
}

/// What a text of calls is due under `plain`, for an accepted class without partial fields.
pub(crate) fn answer_plain(
    alloc: Global,
    called: &Called,
    text: &[u8],
) -> Result<Answer, AllocError>
    requires few { length called.now.entrances.items ≤ 65536 }
    requires size { length text.now ≤ 16777216 }
    ensures due { (class : Class) → IsCalled class called.now → IfOk result (λ a. DueForPlain class text.now a.status a.text) }
    ensures complete { (class : Class) (calls : List Call) → IsCalled class called.now → AreCalls (entrances_of class) (lines text.now) calls → IfOk result (λ a. a.status ≡ Status.Done) }
{
    match read_calls(alloc, called.entrances.as_slice(), text) {
        Ok(calls) => reply(alloc, &called.program, &calls),
        Err(TextError::Bad { line, rule }) => refuse_text(alloc, InputText::Calls, line, rule),
        Err(TextError::Memory) => Err(AllocError),
    }
}
