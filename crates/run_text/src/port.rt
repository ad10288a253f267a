//! The ports of an event.

ghost use Rattle.std.specs.Prelude.{◌≡◌, ◌≢◌, ◌<◌, ◌+◌, ◌^◌, ◌≤◌, ◌++◌, ◌∷◌, [], ℕ, List, length, drop, slice_index, codes, decimal, All, MatchOption};
ghost use Rattle.run_text.specs.Schedules.{IsNoCell, IsNoSender};
ghost use Rattle.run_text.specs.Index.{IsFieldIndex};
ghost use Rattle.run_text.specs.ScheduleReading.{IsCellText, IsSenderText};

use crate::index::number_in;
use crate::number::number_within;
use sdg_base::{Name, Port};
use std::collections::BTreeMap;

/// The sender that a word writes, where it writes one.
pub(crate) fn sender_of(
    fields: &[Name],
    index: &BTreeMap<&[u8], u16>,
    slots: u8,
    word: &[u8],
) -> Option<Port>
    requires { IsFieldIndex fields.now index.now }
    ensures { MatchOption result (IsNoSender fields.now slots word.now) (IsSenderText fields.now slots word.now) }
{
    match word {
        b"caller" => Some(Port::Caller),
        _ => cell_of(fields, index, slots, word),
    }
}

/// The cell that a word writes, where it writes one.
pub(crate) fn cell_of(
    fields: &[Name],
    index: &BTreeMap<&[u8], u16>,
    slots: u8,
    word: &[u8],
) -> Option<Port>
    requires { IsFieldIndex fields.now index.now }
    ensures { MatchOption result (IsNoCell fields.now slots word.now) (IsCellText fields.now slots word.now) }
{
    match word {
        b"in" => Some(Port::Front),
        b"join" => Some(Port::Join),
        _ => slot_of(fields, index, slots, word),
    }
}

/// The slot that a word other than `in` and `join` writes, where it writes one.
fn slot_of(fields: &[Name], index: &BTreeMap<&[u8], u16>, slots: u8, word: &[u8]) -> Option<Port>
    requires index { IsFieldIndex fields.now index.now }
    requires not_front { word.now ≢ codes "in" }
    requires not_join { word.now ≢ codes "join" }
    ensures { MatchOption result (IsNoCell fields.now slots word.now) (IsCellText fields.now slots word.now) }
{
    let (name, number) = cut_last(word)?;
    let field = number_in(index, name)?;
    let slot = number_within(number, 0, 255)?;
    if slot >= slots {
        return None;
    }
    Some(Port::Slot { field, slot })
}

/// What stands in front of the last slash, and behind it.
fn cut_last(word: &[u8]) -> Option<(&[u8], &[u8])>
    ensures { MatchOption result (All (λ b. b ≢ 47) word.now) (λ parts. (parts.0.now ++ 47 ∷ parts.1.now ≡ word.now) × All (λ b. b ≢ 47) parts.1.now) }
{
    let at = last_slash(word)?;
    let (name, rest) = word.split_at(at);
    let (_, number) = rest.split_at(1);
    Some((name, number))
}

/// Where the last slash stands.
fn last_slash(word: &[u8]) -> Option<usize>
    ensures { MatchOption result (All (λ b. b ≢ 47) word.now) (λ at. (at < length word.now) × (slice_index word.now at ≡ 47) × All (λ b. b ≢ 47) (drop (at + 1) word.now)) }
{
    word.iter().rposition(|b| *b == b'/')
}
