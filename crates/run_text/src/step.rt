//! The steps of a history, one a line.

ghost use Rattle.std.specs.Prelude.{◌≡◌, ◌≢◌, ℕ, codes, IfOk, IfErr, MatchOption};
ghost use Rattle.run_text.specs.Lines.{words};
ghost use Rattle.run_text.specs.Histories.{one_words, two_words, IsStepForm, IsStepLine, HasRoom};
ghost use Rattle.run_text.specs.HistoryReading.{words_of, IsRoom, IsIndexOfFields, IsStepOf, IsPlaced, IsMisplaced, IsHistoryMisfit, IsLineRefusal};

use crate::error::HistoryRule;
use crate::field::Field;
use crate::header::has_header_form;
use crate::index::partial_of;
use crate::line::is_well_spelled;
use crate::number::{is_count, number_below, number_upto};
use crate::part::cut;
use crate::room::Room;
use crate::word::next_word;
use sdg_base::Step;
use std::collections::BTreeMap;

/// The most instances of a partial field.
const MOST_INSTANCES: u8 = 64;

/// The words of a step behind its first two.
#[derive(Clone, Copy)]
pub(crate) enum StepWords<'a> {
    Begin { call: &'a [u8] },
    Block { call: &'a [u8] },
    BlockAt { call: &'a [u8], instance: &'a [u8] },
    Visit { call: &'a [u8], instance: &'a [u8] },
    Join { call: &'a [u8] },
    Grow { field: &'a [u8] },
}

/// The step of a line at which the partial fields have so many instances.
pub(crate) fn step_of(
    fields: &[Field],
    index: &BTreeMap<&[u8], u16>,
    calls: u32,
    room: &Room,
    line: &[u8],
) -> Result<Step, HistoryRule>
    requires index { IsIndexOfFields fields.now index.now }
    requires room { IsRoom fields.now room.now }
    ensures found { IfOk result (IsStepLine fields.now calls line.now) }
    ensures room { IfOk result (HasRoom fields.now room.now.widths) }
    ensures bad { IfErr result (IsLineRefusal fields.now calls room.now.widths line.now) }
{
    if !is_well_spelled(line) {
        return Err(HistoryRule::Spelling);
    }
    if has_header_form(line) {
        return Err(HistoryRule::Header);
    }
    let Some(words) = step_words(line) else {
        return Err(HistoryRule::Step);
    };
    step_from(fields, index, calls, room, words)
}

/// The step that the words of one write.
fn step_from(
    fields: &[Field],
    index: &BTreeMap<&[u8], u16>,
    calls: u32,
    room: &Room,
    words: StepWords,
) -> Result<Step, HistoryRule>
    requires index { IsIndexOfFields fields.now index.now }
    requires room { IsRoom fields.now room.now }
    ensures found { IfOk result (IsStepOf fields.now calls (words_of words.entry)) }
    ensures room { IfOk result (HasRoom fields.now room.now.widths) }
    ensures bad { IfErr result (IsHistoryMisfit fields.now calls room.now.widths (words_of words.entry)) }
{
    match words {
        StepWords::Begin { call } => match number_upto(call, calls) {
            Some(call) => Ok(Step::Begin { call }),
            None => Err(HistoryRule::Reference),
        },
        StepWords::Block { call } => match number_upto(call, calls) {
            Some(call) => Ok(Step::Block {
                call,
                instance: None,
            }),
            None => Err(HistoryRule::Reference),
        },
        StepWords::BlockAt { call, instance } => {
            match placed(calls, room.greatest, call, instance) {
                Ok((call, instance)) => Ok(Step::Block {
                    call,
                    instance: Some(instance),
                }),
                Err(rule) => Err(rule),
            }
        }
        StepWords::Visit { call, instance } => {
            match placed(calls, room.greatest, call, instance) {
                Ok((call, instance)) => Ok(Step::Visit { call, instance }),
                Err(rule) => Err(rule),
            }
        }
        StepWords::Join { call } => match number_upto(call, calls) {
            Some(call) => Ok(Step::Join { call }),
            None => Err(HistoryRule::Reference),
        },
        StepWords::Grow { field } => growth(fields, index, room, field),
    }
}

/// The call and the instance that two words write, where the instances are below `greatest`.
fn placed(calls: u32, greatest: u8, call: &[u8], instance: &[u8]) -> Result<(u32, u8), HistoryRule>
    ensures found { IfOk result (λ found. IsPlaced calls greatest call.now instance.now found.0 found.1) }
    ensures bad { IfErr result (IsMisplaced calls greatest call.now instance.now) }
{
    let Some(found) = number_upto(call, calls) else {
        return Err(HistoryRule::Reference);
    };
    if !is_count(instance) {
        return Err(HistoryRule::Reference);
    }
    match number_below(instance, greatest) {
        Some(number) => Ok((found, number)),
        None => Err(HistoryRule::Width),
    }
}

/// The growth of the field that a word names.
fn growth(
    fields: &[Field],
    index: &BTreeMap<&[u8], u16>,
    room: &Room,
    name: &[u8],
) -> Result<Step, HistoryRule>
    requires index { IsIndexOfFields fields.now index.now }
    requires room { IsRoom fields.now room.now }
    ensures found { (calls : ℕ) → IfOk result (IsStepOf fields.now calls (one_words (codes "grow") name.now)) }
    ensures room { IfOk result (HasRoom fields.now room.now.widths) }
    ensures bad { (calls : ℕ) → IfErr result (IsHistoryMisfit fields.now calls room.now.widths (one_words (codes "grow") name.now)) }
{
    let Some(field) = partial_of(fields, index, name) else {
        return Err(HistoryRule::Reference);
    };
    if room.widths.as_slice()[field as usize] >= MOST_INSTANCES {
        return Err(HistoryRule::Width);
    }
    Ok(Step::Grow { field })
}

/// The words of a line that has a step's form.
fn step_words(line: &[u8]) -> Option<StepWords>
    ensures { MatchOption result (¬ IsStepForm (words line.now)) (λ found. words line.now ≡ words_of found) }
{
    let (word, rest) = cut(line, b' ');
    if word != b"step".as_slice() {
        return None;
    }
    let (kind, rest) = next_word(rest)?;
    let (first, rest) = next_word(rest)?;
    let Some(rest) = rest else {
        return with_one(kind, first);
    };
    let (second, rest) = cut(rest, b' ');
    if rest.is_some() {
        return None;
    }
    with_two(kind, first, second)
}

/// The step of a kind with one word behind it.
fn with_one<'a>(kind: &[u8], word: &'a [u8]) -> Option<StepWords<'a>>
    ensures { MatchOption result (¬ IsStepForm (one_words kind.now word.now)) (λ found. one_words kind.now word.now ≡ words_of found) }
{
    match kind {
        b"begin" => Some(StepWords::Begin { call: word }),
        b"block" => Some(StepWords::Block { call: word }),
        b"join" => Some(StepWords::Join { call: word }),
        b"grow" => Some(StepWords::Grow { field: word }),
        _ => None,
    }
}

/// The step of a kind with two words behind it.
fn with_two<'a>(kind: &[u8], call: &'a [u8], instance: &'a [u8]) -> Option<StepWords<'a>>
    ensures { MatchOption result (¬ IsStepForm (two_words kind.now call.now instance.now)) (λ found. two_words kind.now call.now instance.now ≡ words_of found) }
{
    match kind {
        b"block" => Some(StepWords::BlockAt { call, instance }),
        b"visit" => Some(StepWords::Visit { call, instance }),
        _ => None,
    }
}
