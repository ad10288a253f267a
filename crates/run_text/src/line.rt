//! The lines of a text, and the words of a line.

ghost use Rattle.std.specs.Prelude.{◌≡◌, ◌<◌, ◌+◌, ◌-◌, take, ◌==◌, ◌↔◌, [], ◌∷◌, length, count_by, IsTrue, MatchOption};
ghost use Rattle.std.specs.List.{AllByRecursion};
ghost use Rattle.std.specs.Str.Lines.{lines, strip_carriage_return};
ghost use Rattle.run_text.specs.Lines.{is_skipped, words, IsWellSpelled};
ghost use Rattle.run_text.specs.Histories.{is_report_line, is_untold};

use crate::part::cut;

/// The first line of a text and what stands behind it, where there is a line.
pub(crate) fn first_line(text: &[u8]) -> Option<(&[u8], &[u8])>
    ensures lines { MatchOption result (lines text.now ≡ []) (λ found. lines text.now ≡ found.0.now ∷ lines found.1.now) }
    ensures shorter { MatchOption result (length text.now ≡ 0) (λ found. length found.1.now < length text.now) }
{
    let (line, later) = cut(text, b'\n');
    let Some(rest) = later else {
        if line.is_empty() {
            return None;
        }
        return Some((line, &[]));
    };
    Some((without_return(line), rest))
}

/// What stands before the line of this number, from 1: the lines before it, and nothing else.
pub fn lines_before(bytes: &[u8], line: u32) -> &[u8]
    ensures lines { lines result.now ≡ take (line - 1) (lines bytes.now) }
    ensures front { result.now ≡ take (length result.now) bytes.now }
{
    let mut rest = bytes;
    let mut number = 1;
    while number < line {
        let (_, later) = cut(rest, b'\n');
        let Some(more) = later else {
            return bytes;
        };
        rest = more;
        number += 1;
    }
    let (before, _) = bytes.split_at(bytes.len() - rest.len());
    before
}

/// A line without the carriage return at its end.
fn without_return(line: &[u8]) -> &[u8]
    ensures { result.now ≡ strip_carriage_return line.now }
{
    match line {
        [front @ .., b'\r'] => front,
        _ => line,
    }
}

/// Whether a line is empty or a comment.
pub(crate) fn skips(line: &[u8]) -> bool
    ensures { result ≡ is_skipped line.now }
{
    match line {
        [] => true,
        [first, ..] => *first == b'#',
    }
}

/// Whether a line tells nothing of a history.
pub(crate) fn is_untold(line: &[u8]) -> bool
    ensures { result ≡ is_untold line.now }
{
    skips(line) || is_report_line(line)
}

/// Whether a line of a report is neither its header nor a step.
fn is_report_line(line: &[u8]) -> bool
    ensures { result ≡ is_report_line line.now }
{
    line.starts_with(b"event ")
        || line.starts_with(b"drain ")
        || line.starts_with(b"result ")
        || line.starts_with(b"unfinished ")
        || line.starts_with(b"end ")
}

/// Whether a line has printable bytes alone, and single spaces between words alone.
pub(crate) fn is_well_spelled(line: &[u8]) -> bool
    ensures { IsTrue result ↔ IsWellSpelled line.now }
{
    line.iter().all(|b| (32..=126).contains(b)) && is_spaced(line)
}

/// Whether no word of a line is empty.
fn is_spaced(line: &[u8]) -> bool
    ensures { IsTrue result ↔ AllByRecursion (λ word. 0 < length word) (words line.now) }
{
    let mut rest = line;
    loop {
        let (word, later) = cut(rest, b' ');
        if word.is_empty() {
            return false;
        }
        match later {
            None => return true,
            Some(more) => rest = more,
        }
    }
}

/// How many spaces a line has.
pub(crate) fn spaces(line: &[u8]) -> usize
    ensures { result ≡ count_by (λ b. b == 32) line.now }
{
    line.iter().filter(|b| **b == b' ').count()
}
