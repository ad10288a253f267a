//! Words that a rule wants, and names.

ghost use Rattle.std.specs.Prelude.{◌≡◌, map};
ghost use Rattle.java_parser.specs.Words.{ReturnsReading, kinds, kind_of, same_token, begins, after_token, after, name_at};

use crate::error::Refusal;
use java_tree::{Kind, Reserved, Symbol, Token};
use sdg_base::Name;
use sqlite_items::Items;
use std::alloc::Global;

/// A word that a rule wants: one of Java's own, or a name.
#[derive(Clone, Copy)]
pub(crate) enum Wanted<'a> {
    Reserved(Reserved),
    Symbol(Symbol),
    Name(&'a [u8]),
}

/// Whether a token is this word.
#[tactic(auto, unfolding(crate::specs::Words::same_token))]
pub(crate) fn is(kind: &Kind, wanted: Wanted<'_>) -> bool
    ensures { result ≡ same_token kind.now (kind_of wanted.entry) }
{
    match wanted {
        Wanted::Reserved(word) => matches!(kind, Kind::Reserved(found) if *found == word),
        Wanted::Symbol(symbol) => matches!(kind, Kind::Symbol(found) if *found == symbol),
        Wanted::Name(name) => matches!(kind, Kind::Identifier(found) if found.as_slice() == name),
    }
}

/// Whether the tokens begin with this word.
#[tactic(auto, unfolding(crate::specs::Words::begins))]
pub(crate) fn begins(tokens: &[Token], wanted: Wanted<'_>) -> bool
    ensures { result ≡ begins (kind_of wanted.entry) (kinds tokens.now) }
{
    match tokens {
        [] => false,
        [first, ..] => is(&first.kind, wanted),
    }
}

#[tactic(auto, unfolding(crate::specs::Words::after_token))]
fn after_token<'t>(tokens: &'t [Token], wanted: Wanted<'_>) -> Result<&'t [Token], Refusal>
    ensures { ReturnsReading (λ rest. kinds rest.now) result (after_token (kind_of wanted.entry) (kinds tokens.now)) }
{
    match tokens {
        [first, rest @ ..] if is(&first.kind, wanted) => Ok(rest),
        _ => Err(Refusal::NoClass { left: tokens.len() }),
    }
}

/// The tokens after these words.
pub(crate) fn after<'t>(tokens: &'t [Token], words: &[Wanted<'_>]) -> Result<&'t [Token], Refusal>
    ensures { ReturnsReading (λ rest. kinds rest.now) result (after (map kind_of words.now) (kinds tokens.now)) }
{
    let mut rest = tokens;
    for word in words {
        rest = after_token(rest, *word)?;
    }
    Ok(rest)
}

/// The name that the tokens begin with.
#[tactic(auto, unfolding(crate::specs::Words::name_at))]
pub(crate) fn name(alloc: Global, tokens: &[Token]) -> Result<(Name, &[Token]), Refusal>
    ensures { ReturnsReading (λ x. (x.0, kinds x.1.now)) result (name_at (kinds tokens.now)) }
{
    match tokens {
        [
            Token {
                kind: Kind::Identifier(name),
                ..
            },
            rest @ ..,
        ] => Ok((Items::from_slice(alloc, name.as_slice())?, rest)),
        _ => Err(Refusal::NoClass { left: tokens.len() }),
    }
}
