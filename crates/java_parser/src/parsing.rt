//! The tree of all of the tokens.

ghost use Rattle.std.specs.Prelude.{◌≡◌, ◌≤◌, ◌⊎◌, IfOk};
ghost use Rattle.java_tree.specs.declared.token.Place.{Place};
ghost use Rattle.java_tree.specs.declared.tree.Class.{Class};
ghost use Rattle.java_tree.specs.Tokens.{tokens_of};
ghost use Rattle.java_tree.specs.Placed.{IsWellPlaced};
ghost use Rattle.java_tree.specs.Heights.{height, max_levels};
ghost use Rattle.java_parser.specs.Errors.{error_of};

use crate::classes::class;
use crate::error::{ParseError, Refusal};
use java_tree::{Class, Place, Tokens};
use std::alloc::Global;

/// How many levels there may be inside the body of a method, which is the first of them.
const BODY_LEVELS: usize = 199;

/// The one spot that makes this error. It names the first place of a text.
fn error_of(refusal: Refusal) -> ParseError
    ensures { result ≡ error_of refusal }
{
    match refusal {
        Refusal::NoClass { .. } | Refusal::TooDeep { .. } => ParseError::NoClass {
            place: Place { line: 1, column: 1 },
        },
        Refusal::Memory => ParseError::Memory,
    }
}

/// Reads all of the tokens as one class (JLS 7.3, 8, 14, 15).
///
/// Shapes alone are read: names, types and literals are checked elsewhere. A class has at most 200
/// levels of statements and expressions inside one another. The time is linear in the number of tokens
/// and in the bytes of their names. `Memory` says that an allocation failed.
pub fn parse(alloc: Global, tokens: &Tokens) -> Result<Class, ParseError>
    // The tree has these tokens at their places, and stands for them as the grammar says.
    ensures found { IfOk result (λ c. (tokens_of c ≡ tokens.now.list) × IsWellPlaced c × (height c ≤ max_levels)) }
    // Such a tree is given, unless memory runs out.
    ensures only { (c : Class) → tokens_of c ≡ tokens.now.list → IsWellPlaced c → height c ≤ max_levels → (result ≡ Ok c) ⊎ (result ≡ Err ParseError.Memory) }
    // An error names the first place of a text, whichever token is wrong.
    ensures place { (place : Place) → result ≡ Err (ParseError.NoClass place) → place ≡ record { line = 1; column = 1 } }
{
    match class(alloc, BODY_LEVELS, tokens.list.as_slice()) {
        Ok(class) => Ok(class),
        Err(refusal) => Err(error_of(refusal)),
    }
}
