//! The header of a history.

ghost use Rattle.std.specs.Prelude.{◌≡◌, ◌≢◌, MatchOption};
ghost use Rattle.placement.specs.declared.event.Header.{Header as HeaderOf};
ghost use Rattle.run_text.specs.Lines.{words};
ghost use Rattle.run_text.specs.Schedules.{form_words, header_words};
ghost use Rattle.run_text.specs.Histories.{IsRanged, IsOpening};

use crate::header::{Numerals, numerals_of};
use crate::line::is_well_spelled;
use crate::number::number_within;
use placement::Header;

/// The header that a line is, where it is one with its numbers in range.
pub(crate) fn opening_of(line: &[u8]) -> Option<Header>
    ensures { MatchOption result ((h : HeaderOf) → ¬ IsOpening line.now h) (IsOpening line.now) }
{
    if !is_well_spelled(line) {
        return None;
    }
    opening_in(line)
}

/// The header that a line's words write, where they write one.
fn opening_in(line: &[u8]) -> Option<Header>
    ensures { MatchOption result ((h : HeaderOf) → IsRanged h → words line.now ≢ header_words h) (λ h. IsRanged h × (words line.now ≡ header_words h)) }
{
    let numerals = numerals_of(line)?;
    opening_from(numerals)
}

/// The header of these numbers, where they are in range.
fn opening_from(numerals: Numerals) -> Option<Header>
    ensures { MatchOption result ((h : HeaderOf) → IsRanged h → form_words numerals.entry.nodes.now numerals.entry.slots.now numerals.entry.stores.now numerals.entry.width.now ≢ header_words h) (λ h. IsRanged h × (form_words numerals.entry.nodes.now numerals.entry.slots.now numerals.entry.stores.now numerals.entry.width.now ≡ header_words h)) }
{
    Some(Header {
        nodes: number_within(numerals.nodes, 1, 32)?,
        slots: number_within(numerals.slots, 1, 64)?,
        stores: number_within(numerals.stores, 1, 8)?,
        width: number_within(numerals.width, 1, 64)?,
    })
}
