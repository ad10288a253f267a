//! The answer of `run`, for a class of the form that runs.

ghost use Rattle.std.specs.Prelude.{◌≡◌, ◌≤◌, List, length, IfOk};
ghost use Rattle.std.specs.List.{AllByRecursion};
ghost use Rattle.std.specs.Option.{option_copied};
ghost use Rattle.std.specs.Str.Lines.{lines};
ghost use Rattle.sdg_base.specs.declared.call.Call.{Call};
ghost use Rattle.early_forms.specs.Trees.{class_tree};
ghost use Rattle.early_forms.specs.Names.{IsProper};
ghost use Rattle.early_plain.specs.Fits.{CallFits};
ghost use Rattle.run_text.specs.Calls.{AreCalls};
ghost use Rattle.sdg_top.specs.Entrances.{entrances_of};
ghost use Rattle.sdg_top.specs.Due.{DueForSchedule, DueForRun, IsValidSchedule, IsShort};

use crate::answer::{Answer, refuse_text};
use crate::called::Form;
use crate::lines::InputText;
use crate::machine::run;
use crate::status::Status;
use early_forms::StraightClass;
use placement::Schedule;
use run_text::{TextError, read_calls, read_schedule};
use sdg_base::Calls;
use std::alloc::{AllocError, Global};

/// What a text of a schedule is due, for calls of an accepted class.
fn answer_text(
    alloc: Global,
    class: &StraightClass,
    calls: Calls,
    text: &[u8],
) -> Result<Answer, AllocError>
    requires proper { IsProper class.now }
    requires fit { AllByRecursion (CallFits class.now) calls }
    requires few { length calls ≤ 65536 }
    requires size { length text.now ≤ 16777216 }
    ensures due { IfOk result (λ a. DueForSchedule class.now calls (Some text.now) a.status a.text) }
    ensures complete { IsValidSchedule class.now (Some text.now) → IfOk result (λ a. a.status ≡ Status.Done) }
{
    match read_schedule(alloc, class.fields.as_slice(), text) {
        Ok(schedule) => Ok(Answer {
            status: Status::Done,
            text: run(alloc, class, calls, &schedule)?,
        }),
        Err(TextError::Bad { line, rule }) => refuse_text(alloc, InputText::Schedule, line, rule),
        Err(TextError::Memory) => Err(AllocError),
    }
}

/// What a schedule is due, if there is one, for calls of an accepted class.
fn answer_schedule(
    alloc: Global,
    class: &StraightClass,
    calls: Calls,
    schedule: Option<&[u8]>,
) -> Result<Answer, AllocError>
    requires proper { IsProper class.now }
    requires fit { AllByRecursion (CallFits class.now) calls }
    requires few { length calls ≤ 65536 }
    requires size { IsShort (option_copied schedule) }
    ensures due { IfOk result (λ a. DueForSchedule class.now calls (option_copied schedule.entry) a.status a.text) }
    ensures complete { IsValidSchedule class.now (option_copied schedule.entry) → IfOk result (λ a. a.status ≡ Status.Done) }
{
    match schedule {
        Some(text) => answer_text(alloc, class, calls, text),
        None => Ok(Answer {
            status: Status::Done,
            text: run(alloc, class, calls, &Schedule::by_default(alloc))?,
        }),
    }
}

/// What texts of calls and of a schedule are due, for an accepted class of the form.
pub(crate) fn answer_run(
    alloc: Global,
    form: &Form,
    text: &[u8],
    schedule: Option<&[u8]>,
) -> Result<Answer, AllocError>
    requires proper { IsProper form.now.class }
    requires entrances { form.now.entrances.items ≡ entrances_of (class_tree form.now.class) }
    requires few { length form.now.entrances.items ≤ 65536 }
    requires size { length text.now ≤ 16777216 }
    requires schedule_size { IsShort (option_copied schedule) }
    ensures due { IfOk result (λ a. DueForRun form.now.class text.now (option_copied schedule.entry) a.status a.text) }
    ensures complete { (calls : List Call) → AreCalls (entrances_of (class_tree form.now.class)) (lines text.now) calls → IsValidSchedule form.now.class (option_copied schedule.entry) → IfOk result (λ a. a.status ≡ Status.Done) }
{
    match read_calls(alloc, form.entrances.as_slice(), text) {
        Ok(calls) => answer_schedule(alloc, &form.class, calls, schedule),
        Err(TextError::Bad { line, rule }) => refuse_text(alloc, InputText::Calls, line, rule),
        Err(TextError::Memory) => Err(AllocError),
    }
}
