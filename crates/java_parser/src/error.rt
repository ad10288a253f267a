//! Why no tree was read.

ghost use Rattle.std.specs.Prelude.{◌≡◌};
ghost use Rattle.java_parser.specs.declared.error.Refusal.TheVariants.{Memory};

use java_tree::Place;
use std::alloc::AllocError;
use thiserror::Error;

/// Why tokens gave no tree.
#[derive(Debug, Drop, Error)]
pub enum ParseError {
    /// No class of the grammar that nests at most 200 levels deep has these tokens. The place is the
    /// first of a text, whichever token is wrong.
    #[error("line {}, column {}: no class has these tokens", .place.line, .place.column)]
    NoClass { place: Place },
    /// An allocation failed.
    #[error("there was no memory for the tree")]
    Memory,
}

/// Why a rule of the grammar read nothing, with how many tokens are left from the refused one on.
#[derive(Drop)]
pub(crate) enum Refusal {
    NoClass { left: usize },
    TooDeep { left: usize },
    Memory,
}

impl From<AllocError> for Refusal {
    ghost from_gives = { λ _ e. e ≡ Memory };

    fn from(_: AllocError) -> Refusal {
        Refusal::Memory
    }
}
