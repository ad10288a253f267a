//! The tokens of a text.

ghost use Rattle.std.specs.Prelude.{◌≡◌, ◌⊎◌, ◌<◌, ◌-◌, ◌^◌, ◌++◌, List, ℕ, length, IfOk, IfErr, MatchResult};
ghost use Rattle.java_tree.specs.declared.token.Token.{Token};
ghost use Rattle.java_tree.specs.declared.token.Place.{Place};
ghost use Rattle.java_lexer.specs.Places.{first_place, place_after};
ghost use Rattle.java_lexer.specs.Spelling.{Spells, Refuses};
ghost use Rattle.java_lexer.specs.Reading.{tokens_of, IsErrorOf};
ghost use Rattle.java_lexer.specs.declared.lexer.LexError.{LexError};
ghost use Rattle.java_lexer.specs.declared.lexer.LexError.TheVariants.{Memory};

use crate::element::{Element, Fault, first_element};
use crate::place::place_past;
use java_tree::{Place, Token, Tokens};
use sqlite_items::Items;
use std::alloc::{AllocError, Global};
use thiserror::Error;

/// Why no tokens were answered. Each place is that of the first byte at which nothing begins.
#[derive(Debug, Drop, Error)]
pub enum LexError {
    /// The byte begins no token, no comment and no white space.
    #[error("line {}, column {}: this byte begins no token", .0.line, .0.column)]
    BadByte(Place),
    /// The letters, digits and `_` from this digit on are no integer literal (JLS 3.10.1).
    #[error("line {}, column {}: this is no integer literal", .0.line, .0.column)]
    BadNumber(Place),
    /// The `/*` has no `*/` behind it (JLS 3.7).
    #[error("line {}, column {}: this comment does not end", .0.line, .0.column)]
    OpenComment(Place),
    /// There was no memory for the tokens.
    #[error("there was no memory for the tokens")]
    Memory,
}

impl From<AllocError> for LexError {
    ghost from_gives = { λ _ e. e ≡ Memory };

    fn from(_error: AllocError) -> LexError {
        LexError::Memory
    }
}

fn error_at(fault: Fault, place: Place) -> LexError
    ensures { IsErrorOf fault place result }
{
    match fault {
        Fault::BadByte => LexError::BadByte(place),
        Fault::BadNumber => LexError::BadNumber(place),
        Fault::OpenComment => LexError::OpenComment(place),
        Fault::Memory => LexError::Memory,
    }
}

/// Adds the token of an element to those before it.
fn add(list: &mut Items<Token>, element: Element, place: Place) -> Result<(), AllocError>
    ensures { IfOk result (λ _. list.new ≡ list.old ++ tokens_of element place) }
{
    match element {
        Element::Space => Ok(()),
        Element::Token(kind) => list.push(Token { kind, place }),
    }
}

/// A text is spelled by one list of tokens, or refused for one reason at one place, and never both.
/// The place at the end is the place after the bytes of the whole text.
pub fn one_answer()
    ensures one_spelling { (at end other : Place) (tokens others : List Token) (text : List ℕ) →
        Spells at tokens end text → Spells at others other text → (tokens ≡ others) × (end ≡ other) }
    ensures end_place { (at end : Place) (tokens : List Token) (text : List ℕ) →
        Spells at tokens end text → end ≡ place_after at text }
    ensures never_both { (at end : Place) (tokens : List Token) (text : List ℕ) (error : LexError) →
        Spells at tokens end text → Refuses at text error → ⊥ }
    ensures one_refusal { (at : Place) (text : List ℕ) (error other : LexError) →
        Refuses at text error → Refuses at text other → error ≡ other }
{}

/// The tokens of a text of fewer than 4294967295 bytes, with their places (JLS 3): identifiers of
/// ASCII letters, digits, `_` and `$` (JLS 3.8), reserved words (JLS 3.9), integer literals (JLS
/// 3.10.1), separators and operators (JLS 3.11, 3.12), with white space and comments between them.
/// Bytes from 0x80 on stand only in comments. There are no Unicode escapes, and no other literals.
/// In base 10 an integer literal may be the magnitude of the least `int` or `long`, wherever it
/// stands. An error names the first place at which nothing begins. The answer may be `Memory` for
/// any text.
pub fn lex(alloc: Global, bytes: &[u8]) -> Result<Tokens, LexError>
    // A line and a column fit a `u32`.
    requires { length bytes.now < 2 ^ 32 - 1 }
    // What is answered spells the text.
    ensures found { IfOk result (λ t. Spells first_place t.list t.end bytes.now) }
    // Whatever spells the text is what is answered, unless memory runs out.
    ensures only { (tokens : List Token) (end : Place) → Spells first_place tokens end bytes.now →
        MatchResult result (λ t. (t.list ≡ tokens) × (t.end ≡ end)) (λ e. e ≡ Memory) }
    // An error says what refuses the text, and where.
    ensures refused { IfErr result (λ e. (e ≡ Memory) ⊎ Refuses first_place bytes.now e) }
    // Whatever refuses the text is what is answered, unless memory runs out.
    ensures only_refused { (error : LexError) → Refuses first_place bytes.now error →
        MatchResult result (λ _. ⊥) (λ e. (e ≡ Memory) ⊎ (e ≡ error)) }
{
    let mut list = Items::new(alloc);
    let mut place = Place { line: 1, column: 1 };
    let mut rest = bytes;
    while !rest.is_empty() {
        let (element, len) = match first_element(alloc, rest) {
            Ok(front) => front,
            Err(fault) => return Err(error_at(fault, place)),
        };
        let (front, after) = rest.split_at(len);
        add(&mut list, element, place)?;
        place = place_past(place, front);
        rest = after;
    }
    Ok(Tokens { list, end: place })
}
