//! The answer that texts are due.

ghost use Rattle.std.specs.Prelude.{◌≡◌, ◌≤◌, length, IfOk};
ghost use Rattle.std.specs.Option.{option_copied};
ghost use Rattle.java_tree.specs.declared.tree.Class.{Class as ClassOf};
ghost use Rattle.sdg_top.specs.Accepted.{Accepts, annotated_of};
ghost use Rattle.sdg_top.specs.Acceptance.{phase_text};
ghost use Rattle.sdg_top.specs.Answers.{class_refused_line, text_refused_line};
ghost use Rattle.sdg_top.specs.Commands.{Text, Run, Plain, Replay, Graph};
ghost use Rattle.sdg_top.specs.Due.{DueForTexts, AreValid, IsShort};

use crate::accept::{FIRST, Judgement, Phase, judge};
use crate::called::{form_of, let_go, resolved};
use crate::graph::answer_graph;
use crate::lines::{InputText, class_refused, text_refused};
use crate::plain::answer_plain;
use crate::replay::answer_replay;
use crate::scheduled::answer_run;
use crate::status::Status;
use annotations::Annotated;
use java_tree::Place;
use sdg_base::Bytes;
use std::alloc::{AllocError, Global};

/// A status, and the text that goes with it.
#[derive(Debug, Drop)]
pub(crate) struct Answer {
    pub status: Status,
    pub text: Bytes,
}

/// The answer to a class that is refused.
fn refuse_class(alloc: Global, phase: &str, at: Place) -> Result<Answer, AllocError>
    ensures status { IfOk result (λ a. a.status ≡ Status.Class) }
    ensures text { IfOk result (λ a. a.text ≡ class_refused_line phase.now at.line at.column) }
{
    Ok(Answer {
        status: Status::Class,
        text: class_refused(alloc, phase, at.line, at.column)?,
    })
}

/// The answer to a class that a phase of its judgement refuses.
fn refuse(alloc: Global, phase: Phase, at: Place) -> Result<Answer, AllocError>
    ensures status { IfOk result (λ a. a.status ≡ Status.Class) }
    ensures text { IfOk result (λ a. a.text ≡ class_refused_line (phase_text phase) at.line at.column) }
{
    let name = phase.text(alloc)?;
    refuse_class(alloc, name.as_str(), at)
}

/// The answer to a text with a line that breaks a rule.
pub(crate) fn refuse_text(
    alloc: Global,
    text: InputText,
    line: u32,
    rule: u8,
) -> Result<Answer, AllocError>
    ensures status { IfOk result (λ a. a.status ≡ Status.Text) }
    ensures text { IfOk result (λ a. a.text ≡ text_refused_line text line rule) }
{
    Ok(Answer {
        status: Status::Text,
        text: text_refused(alloc, text, line, rule)?,
    })
}

/// What the texts of an accepted class, of calls and of a schedule are due under `run`.
fn answer_for_run(
    alloc: Global,
    annotated: Annotated,
    calls_text: &[u8],
    schedule: Option<&[u8]>,
) -> Result<Answer, AllocError>
    requires calls_size { length calls_text.now ≤ 16777216 }
    requires schedule_size { IsShort (option_copied schedule) }
    ensures due { (text : Text) (class : ClassOf) → Accepts text class → annotated ≡ annotated_of class → IfOk result (λ a. DueForTexts (Run text calls_text.now (option_copied schedule.entry)) a.status a.text) }
    ensures complete { (text : Text) (class : ClassOf) → Accepts text class → annotated ≡ annotated_of class → AreValid (Run text calls_text.now (option_copied schedule.entry)) → IfOk result (λ a. a.status ≡ Status.Done) }
{
    match form_of(alloc, annotated)? {
        Some(form) => answer_run(alloc, &form, calls_text, schedule),
        None => refuse_class(alloc, "form", FIRST),
    }
}

/// What the texts of an accepted class and of calls are due under `plain`.
fn answer_for_plain(
    alloc: Global,
    annotated: Annotated,
    calls_text: &[u8],
) -> Result<Answer, AllocError>
    requires calls_size { length calls_text.now ≤ 16777216 }
    ensures due { (text : Text) (class : ClassOf) → Accepts text class → annotated ≡ annotated_of class → IfOk result (λ a. DueForTexts (Plain text calls_text.now) a.status a.text) }
    ensures complete { (text : Text) (class : ClassOf) → Accepts text class → annotated ≡ annotated_of class → AreValid (Plain text calls_text.now) → IfOk result (λ a. a.status ≡ Status.Done) }
{
    match annotated.partial {
        Some(at) => {
            let_go(annotated);
            refuse_class(alloc, "plain", at)
        }
        None => {
            let called = resolved(alloc, annotated)?;
            answer_plain(alloc, &called, calls_text)
        }
    }
}

/// What the texts of an accepted class, of calls and of a history are due under `replay`.
fn answer_for_replay(
    alloc: Global,
    annotated: Annotated,
    calls_text: &[u8],
    history_text: &[u8],
) -> Result<Answer, AllocError>
    requires calls_size { length calls_text.now ≤ 16777216 }
    requires history_size { length history_text.now ≤ 16777216 }
    ensures due { (text : Text) (class : ClassOf) → Accepts text class → annotated ≡ annotated_of class → IfOk result (λ a. DueForTexts (Replay text calls_text.now history_text.now) a.status a.text) }
    ensures complete { (text : Text) (class : ClassOf) → Accepts text class → annotated ≡ annotated_of class → AreValid (Replay text calls_text.now history_text.now) → IfOk result (λ a. a.status ≡ Status.Done) }
{
    let called = resolved(alloc, annotated)?;
    answer_replay(alloc, &called, calls_text, history_text)
}

/// What the texts of a class, of calls and of a schedule are due under `run`.
pub(crate) fn run_texts(
    alloc: Global,
    class_text: &[u8],
    calls_text: &[u8],
    schedule: Option<&[u8]>,
) -> Result<Answer, AllocError>
    requires class_size { length class_text.now ≤ 1048576 }
    requires calls_size { length calls_text.now ≤ 16777216 }
    requires schedule_size { IsShort (option_copied schedule) }
    ensures due { IfOk result (λ a. DueForTexts (Run class_text.now calls_text.now (option_copied schedule.entry)) a.status a.text) }
    ensures complete { AreValid (Run class_text.now calls_text.now (option_copied schedule.entry)) → IfOk result (λ a. a.status ≡ Status.Done) }
{
    match judge(alloc, class_text)? {
        Judgement::Takes(annotated) => answer_for_run(alloc, annotated, calls_text, schedule),
        Judgement::Refuses(phase, at) => refuse(alloc, phase, at),
    }
}

/// What the texts of a class and of calls are due under `plain`.
pub(crate) fn plain_texts(
    alloc: Global,
    class_text: &[u8],
    calls_text: &[u8],
) -> Result<Answer, AllocError>
    requires class_size { length class_text.now ≤ 1048576 }
    requires calls_size { length calls_text.now ≤ 16777216 }
    ensures due { IfOk result (λ a. DueForTexts (Plain class_text.now calls_text.now) a.status a.text) }
    ensures complete { AreValid (Plain class_text.now calls_text.now) → IfOk result (λ a. a.status ≡ Status.Done) }
{
    match judge(alloc, class_text)? {
        Judgement::Takes(annotated) => answer_for_plain(alloc, annotated, calls_text),
        Judgement::Refuses(phase, at) => refuse(alloc, phase, at),
    }
}

/// What the texts of a class, of calls and of a history are due under `replay`.
pub(crate) fn replay_texts(
    alloc: Global,
    class_text: &[u8],
    calls_text: &[u8],
    history_text: &[u8],
) -> Result<Answer, AllocError>
    requires class_size { length class_text.now ≤ 1048576 }
    requires calls_size { length calls_text.now ≤ 16777216 }
    requires history_size { length history_text.now ≤ 16777216 }
    ensures due { IfOk result (λ a. DueForTexts (Replay class_text.now calls_text.now history_text.now) a.status a.text) }
    ensures complete { AreValid (Replay class_text.now calls_text.now history_text.now) → IfOk result (λ a. a.status ≡ Status.Done) }
{
    match judge(alloc, class_text)? {
        Judgement::Takes(annotated) => {
            answer_for_replay(alloc, annotated, calls_text, history_text)
        }
        Judgement::Refuses(phase, at) => refuse(alloc, phase, at),
    }
}

/// What the text of a class is due under `graph`.
pub(crate) fn graph_texts(alloc: Global, class_text: &[u8]) -> Result<Answer, AllocError>
    requires class_size { length class_text.now ≤ 1048576 }
    ensures due { IfOk result (λ a. DueForTexts (Graph class_text.now) a.status a.text) }
    ensures complete { AreValid (Graph class_text.now) → IfOk result (λ a. a.status ≡ Status.Done) }
{
    match judge(alloc, class_text)? {
        Judgement::Takes(annotated) => answer_graph(alloc, annotated),
        Judgement::Refuses(phase, at) => refuse(alloc, phase, at),
    }
}
