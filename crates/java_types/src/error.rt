//! Why a class is refused.

use java_tree::Place;
use thiserror::Error;

/// Why a class has no types.
#[derive(Debug, Drop, Error)]
pub enum TypeError {
    /// A rule of types is broken at this place.
    #[error("type {rule} at {}:{}", .place.line, .place.column)]
    Rule { rule: u8, place: Place },
    /// An allocation failed.
    #[error("out of memory")]
    Memory,
}
