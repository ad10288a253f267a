//! The words of a line, one behind the other.

ghost use Rattle.std.specs.Prelude.{◌≡◌, ◌≢◌, ℕ, List, [], ◌∷◌, MatchOption};
ghost use Rattle.run_text.specs.ScheduleReading.{coming};

use crate::part::cut;

/// The next word and what stands behind it, where there is a word.
pub(crate) fn next_word(later: Option<&[u8]>) -> Option<(&[u8], Option<&[u8]>)>
    ensures { MatchOption result (coming later.entry ≡ []) (λ next. coming later.entry ≡ next.0.now ∷ coming next.1) }
{
    match later {
        Some(rest) => Some(cut(rest, b' ')),
        None => None,
    }
}

/// The word that stands behind a label and what stands behind that word, where the label is next.
pub(crate) fn labelled<'a>(
    later: Option<&'a [u8]>,
    label: &[u8],
) -> Option<(&'a [u8], Option<&'a [u8]>)>
    ensures { MatchOption result ((word : List ℕ) (more : List (List ℕ)) → coming later.entry ≢ label.now ∷ word ∷ more) (λ found. coming later.entry ≡ label.now ∷ found.0.now ∷ coming found.1) }
{
    let (word, rest) = next_word(later)?;
    if word != label {
        return None;
    }
    next_word(rest)
}
