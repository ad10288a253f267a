//! The header of a schedule.

ghost use Rattle.std.specs.Prelude.{◌≡◌, ◌≢◌, ◌↔◌, ℕ, List, IsTrue, IfOk, IfErr, MatchOption};
ghost use Rattle.placement.specs.declared.event.Header.{Header as HeaderOf};
ghost use Rattle.run_text.specs.Lines.{words};
ghost use Rattle.run_text.specs.Schedules.{form_words, header_words, IsInRange, IsHeaderLine, IsHeaderForm, FirstBreaks};
ghost use Rattle.run_text.specs.ScheduleReading.{IsLeast};

use crate::error::ScheduleRule;
use crate::line::is_well_spelled;
use crate::number::{is_number, number_within};
use crate::part::cut;
use crate::word::labelled;
use placement::Header;

/// The words that stand where a header has its numbers.
#[derive(Clone, Copy)]
pub(crate) struct Numerals<'a> {
    pub(crate) nodes: &'a [u8],
    pub(crate) slots: &'a [u8],
    pub(crate) stores: &'a [u8],
    pub(crate) width: &'a [u8],
}

/// The header of a line.
pub(crate) fn header_of(line: &[u8]) -> Result<Header, ScheduleRule>
    ensures found { IfOk result (IsHeaderLine line.now) }
    ensures bad { IfErr result (IsLeast (FirstBreaks line.now)) }
{
    if !is_well_spelled(line) {
        return Err(ScheduleRule::Spelling);
    }
    match header_in(line) {
        Some(header) => Ok(header),
        None => Err(ScheduleRule::Header),
    }
}

/// The header that a line's words write, where they write one.
fn header_in(line: &[u8]) -> Option<Header>
    ensures { MatchOption result ((h : HeaderOf) → IsInRange h → words line.now ≢ header_words h) (λ h. IsInRange h × (words line.now ≡ header_words h)) }
{
    let numerals = numerals_of(line)?;
    header_from(numerals)
}

/// The header of these numbers, where they are in range.
fn header_from(numerals: Numerals) -> Option<Header>
    ensures { MatchOption result ((h : HeaderOf) → IsInRange h → form_words numerals.entry.nodes.now numerals.entry.slots.now numerals.entry.stores.now numerals.entry.width.now ≢ header_words h) (λ h. IsInRange h × (form_words numerals.entry.nodes.now numerals.entry.slots.now numerals.entry.stores.now numerals.entry.width.now ≡ header_words h)) }
{
    Some(Header {
        nodes: number_within(numerals.nodes, 1, 32)?,
        slots: number_within(numerals.slots, 1, 1)?,
        stores: number_within(numerals.stores, 1, 8)?,
        width: number_within(numerals.width, 1, 64)?,
    })
}

/// Whether a line has a header's words, with numbers of any size.
pub(crate) fn has_header_form(line: &[u8]) -> bool
    ensures { IsTrue result ↔ IsHeaderForm (words line.now) }
{
    match numerals_of(line) {
        Some(numerals) => are_numbers(numerals),
        None => false,
    }
}

/// Whether each numeral is a number of any size.
fn are_numbers(numerals: Numerals) -> bool
    ensures { IsTrue result ↔ IsHeaderForm (form_words numerals.entry.nodes.now numerals.entry.slots.now numerals.entry.stores.now numerals.entry.width.now) }
{
    is_number(numerals.nodes)
        && is_number(numerals.slots)
        && is_number(numerals.stores)
        && is_number(numerals.width)
}

/// The words of a line that stand where a header has its numbers.
pub(crate) fn numerals_of(line: &[u8]) -> Option<Numerals>
    ensures { MatchOption result ((nodes slots stores width : List ℕ) → words line.now ≢ form_words nodes slots stores width) (λ n. words line.now ≡ form_words n.nodes.now n.slots.now n.stores.now n.width.now) }
{
    let (word, rest) = cut(line, b' ');
    if word != b"sdg".as_slice() {
        return None;
    }
    let (nodes, rest) = labelled(rest, b"nodes")?;
    let (slots, rest) = labelled(rest, b"slots")?;
    let (stores, rest) = labelled(rest, b"stores")?;
    let (width, rest) = labelled(rest, b"width")?;
    if rest.is_some() {
        return None;
    }
    Some(Numerals {
        nodes,
        slots,
        stores,
        width,
    })
}
