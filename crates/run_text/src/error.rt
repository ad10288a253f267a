//! Why a text was refused.

ghost use Rattle.std.specs.Prelude.{◌≡◌};
ghost use Rattle.run_text.specs.Calls.{number_of};
ghost use Rattle.run_text.specs.Reading.{error_at};
ghost use Rattle.run_text.specs.Schedules.{rule_number};
ghost use Rattle.run_text.specs.Histories.{history_rule_number};
ghost use Rattle.run_text.specs.declared.error.LineError.TheVariants as line;
ghost use Rattle.run_text.specs.declared.error.TextError.TheVariants as text;

use std::alloc::AllocError;
use thiserror::Error;

/// A rule of a line of calls. The rules are judged in this order.
#[derive(Clone, Copy, Debug, PartialEq, Eq)]
pub enum CallRule {
    /// The bytes are printable ASCII, and single spaces stand between words alone.
    Spelling,
    /// The first word is the name of an entry method.
    Method,
    /// There are as many arguments as the method has parameters.
    Count,
    /// Each argument is a value of its parameter's type.
    Value,
    /// There are at most 65,536 calls.
    Limit,
}

impl CallRule {
    /// Its number in a report, from 1.
    pub fn number(self) -> u8
        ensures { result ≡ number_of self }
    {
        match self {
            CallRule::Spelling => 1,
            CallRule::Method => 2,
            CallRule::Count => 3,
            CallRule::Value => 4,
            CallRule::Limit => 5,
        }
    }
}

/// A rule of a line of a schedule. The rules are judged in this order.
#[derive(Clone, Copy, Debug, PartialEq, Eq)]
pub enum ScheduleRule {
    /// The bytes are printable ASCII, and single spaces stand between words alone.
    Spelling,
    /// The first line is a header with its numbers in range, and no later line is a header.
    Header,
    /// The first word is a known event, and the event has as many words.
    Event,
    /// Each port is one that the class and the header can have where it stands.
    Port,
    /// A number in range stands where one must stand.
    Number,
    /// There are at most 1,000,000 events.
    Limit,
}

impl ScheduleRule {
    /// Its number in a report. Rule 6 is of events that are not built yet.
    pub fn number(self) -> u8
        ensures { result ≡ rule_number self }
    {
        match self {
            ScheduleRule::Spelling => 1,
            ScheduleRule::Header => 2,
            ScheduleRule::Event => 3,
            ScheduleRule::Port => 4,
            ScheduleRule::Number => 5,
            ScheduleRule::Limit => 7,
        }
    }
}

/// A rule of a line of a history. The rules are judged in this order.
#[derive(Clone, Copy, Debug, PartialEq, Eq)]
pub enum HistoryRule {
    /// The bytes are printable ASCII, and single spaces stand between words alone.
    Spelling,
    /// A header stands only first, with its numbers in range.
    Header,
    /// The first words are those of a known step, and the step has as many words.
    Step,
    /// Each call and each partial field exists, and each instance is a number that isn't negative.
    Reference,
    /// An instance is below the width of a partial field, and no growth ends above 64.
    Width,
}

impl HistoryRule {
    /// Its number in a report. Rule 6, that each step is its call's next, is of runs and not of texts.
    pub fn number(self) -> u8
        ensures { result ≡ history_rule_number self }
    {
        match self {
            HistoryRule::Spelling => 1,
            HistoryRule::Header => 2,
            HistoryRule::Step => 3,
            HistoryRule::Reference => 4,
            HistoryRule::Width => 5,
        }
    }
}

/// Why a text could not be read. Lines count from 1, skipped ones too, and rules from 1.
#[derive(Clone, Copy, Debug, PartialEq, Eq, Error)]
pub enum TextError {
    #[error("line {line} breaks rule {rule}")]
    Bad { line: u32, rule: u8 },
    #[error("out of memory")]
    Memory,
}

impl From<AllocError> for TextError {
    ghost from_gives = { λ _ e. e ≡ text.Memory };

    fn from(_e: AllocError) -> TextError {
        TextError::Memory
    }
}

/// Why a line could not be read.
#[derive(Clone, Copy, Debug, PartialEq, Eq)]
pub(crate) enum LineError {
    Breaks(CallRule),
    Memory,
}

impl LineError {
    /// The error of a text whose line of this number can't be read.
    pub(crate) fn at(self, line: u32) -> TextError
        ensures { result ≡ error_at line self }
    {
        match self {
            LineError::Breaks(rule) => TextError::Bad {
                line,
                rule: rule.number(),
            },
            LineError::Memory => TextError::Memory,
        }
    }
}

impl From<AllocError> for LineError {
    ghost from_gives = { λ _ e. e ≡ line.Memory };

    fn from(_e: AllocError) -> LineError {
        LineError::Memory
    }
}
