//! The events of a schedule, one a line.

ghost use Rattle.std.specs.Prelude.{◌≡◌, ◌≢◌, ◌^◌, ◌≤◌, ◌<◌, ◌∷◌, codes, length, IfOk, IfErr, OnOk, MatchOption};
ghost use Rattle.run_text.specs.Lines.{words};
ghost use Rattle.run_text.specs.Schedules.{take_words, IsEventLine, IsEventForm, LaterBreaks};
ghost use Rattle.run_text.specs.Index.{IsFieldIndex};
ghost use Rattle.run_text.specs.ScheduleReading.{coming, words_of, IsLeast, IsEventOf, IsMisfit};

use crate::error::ScheduleRule;
use crate::header::has_header_form;
use crate::line::is_well_spelled;
use crate::number::number_within;
use crate::part::cut;
use crate::port::{cell_of, sender_of};
use crate::word::next_word;
use placement::Event;
use sdg_base::Name;
use std::collections::BTreeMap;

/// The most events of a schedule.
const MOST_EVENTS: usize = 1_000_000;

/// The words of an event behind its first.
#[derive(Clone, Copy)]
pub(crate) enum EventWords<'a> {
    Take {
        to: &'a [u8],
        from: &'a [u8],
        pick: &'a [u8],
    },
    Sink {
        from: &'a [u8],
    },
}

/// The event of a line before which there are so many events.
pub(crate) fn event_of(
    fields: &[Name],
    index: &BTreeMap<&[u8], u16>,
    slots: u8,
    before: usize,
    line: &[u8],
) -> Result<Event, ScheduleRule>
    requires { IsFieldIndex fields.now index.now }
    ensures found { IfOk result (IsEventLine fields.now slots line.now) }
    ensures room { OnOk result (before < 1000000) }
    ensures bad { IfErr result (IsLeast (LaterBreaks fields.now slots before line.now)) }
{
    if !is_well_spelled(line) {
        return Err(ScheduleRule::Spelling);
    }
    if has_header_form(line) {
        return Err(ScheduleRule::Header);
    }
    let Some(words) = event_words(line) else {
        return Err(ScheduleRule::Event);
    };
    let event = event_from(fields, index, slots, words)?;
    if before >= MOST_EVENTS {
        return Err(ScheduleRule::Limit);
    }
    Ok(event)
}

/// The event that the words of one write.
fn event_from(
    fields: &[Name],
    index: &BTreeMap<&[u8], u16>,
    slots: u8,
    words: EventWords,
) -> Result<Event, ScheduleRule>
    requires { IsFieldIndex fields.now index.now }
    ensures found { IfOk result (IsEventOf fields.now slots (words_of words.entry)) }
    ensures bad { IfErr result (IsMisfit fields.now slots (words_of words.entry)) }
{
    match words {
        EventWords::Take { to, from, pick } => take_from(fields, index, slots, to, from, pick),
        EventWords::Sink { from } => match cell_of(fields, index, slots, from) {
            Some(from) => Ok(Event::Sink { from }),
            None => Err(ScheduleRule::Port),
        },
    }
}

/// The `take` of these words.
fn take_from(
    fields: &[Name],
    index: &BTreeMap<&[u8], u16>,
    slots: u8,
    to: &[u8],
    from: &[u8],
    pick: &[u8],
) -> Result<Event, ScheduleRule>
    requires { IsFieldIndex fields.now index.now }
    ensures found { IfOk result (IsEventOf fields.now slots (take_words to.now from.now pick.now)) }
    ensures bad { IfErr result (IsMisfit fields.now slots (take_words to.now from.now pick.now)) }
{
    let Some(to) = cell_of(fields, index, slots, to) else {
        return Err(ScheduleRule::Port);
    };
    let Some(from) = sender_of(fields, index, slots, from) else {
        return Err(ScheduleRule::Port);
    };
    let Some(pick) = number_within(pick, 0, 63) else {
        return Err(ScheduleRule::Number);
    };
    Ok(Event::Take { to, from, pick })
}

/// The words of a line that has an event's form.
fn event_words(line: &[u8]) -> Option<EventWords>
    ensures { MatchOption result (¬ IsEventForm (words line.now)) (λ found. words line.now ≡ words_of found) }
{
    let (word, later) = cut(line, b' ');
    if word == b"take".as_slice() {
        return words_of_take(later);
    }
    if word == b"sink".as_slice() {
        return words_of_sink(later);
    }
    None
}

/// The three words behind `take`.
fn words_of_take(later: Option<&[u8]>) -> Option<EventWords>
    ensures { MatchOption result (¬ IsEventForm (codes "take" ∷ coming later.entry)) (λ found. codes "take" ∷ coming later.entry ≡ words_of found) }
{
    let (to, rest) = next_word(later)?;
    let (from, rest) = next_word(rest)?;
    let (pick, rest) = next_word(rest)?;
    match rest {
        None => Some(EventWords::Take { to, from, pick }),
        Some(_) => None,
    }
}

/// The word behind `sink`.
fn words_of_sink(later: Option<&[u8]>) -> Option<EventWords>
    ensures { MatchOption result (¬ IsEventForm (codes "sink" ∷ coming later.entry)) (λ found. codes "sink" ∷ coming later.entry ≡ words_of found) }
{
    let (from, rest) = next_word(later)?;
    match rest {
        None => Some(EventWords::Sink { from }),
        Some(_) => None,
    }
}
