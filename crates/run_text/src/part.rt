//! Texts that a byte cuts into parts: lines, words, and the elements of a vector.

ghost use Rattle.std.specs.Prelude.{◌≡◌, ◌≢◌, ◌<◌, ◌==◌, ◌∷◌, length, All, IfSome, IfNone, MatchOption};
ghost use Rattle.std.specs.Option.{option_copied};
ghost use Rattle.std.specs.List.{slice_split};
ghost use Rattle.run_text.specs.Parts.{parts_of, IsFirstPlace};

/// The part in front of the first separator, and what stands behind that separator.
pub(crate) fn cut(bytes: &[u8], separator: u8) -> (&[u8], Option<&[u8]>)
    ensures parts { slice_split (λ b. b == separator) bytes.now ≡ result.0.now ∷ parts_of separator (option_copied result.1) }
    ensures shorter { IfSome result.1 (λ rest. length rest.now < length bytes.now) }
    ensures whole { IfNone result.1 (result.0.now ≡ bytes.now) }
{
    let Some(at) = place_of(bytes, separator) else {
        return (bytes, None);
    };
    let (part, rest) = bytes.split_at(at);
    let (_, rest) = rest.split_at(1);
    (part, Some(rest))
}

/// Where the first separator stands.
fn place_of(bytes: &[u8], separator: u8) -> Option<usize>
    ensures { MatchOption result (All (λ b. b ≢ separator) bytes.now) (λ at. IsFirstPlace bytes.now separator at) }
{
    bytes.iter().position(|b| *b == separator)
}
