//! Why a class is refused.

use java_tree::Place;
use thiserror::Error;

/// The least finding of the rules on flow, or want of memory.
#[derive(Debug, Drop, Error)]
pub enum FlowError {
    /// A statement can't be reached (JLS 14.22). The place is its first token.
    #[error("unreachable statement at {line}:{column}", line = .0.line, column = .0.column)]
    Unreachable(Place),
    /// The body of a method with a result can complete normally (JLS 8.4.7). The place is its closing
    /// brace.
    #[error("missing return at {line}:{column}", line = .0.line, column = .0.column)]
    MissingReturn(Place),
    /// A local is read where it isn't definitely assigned (JLS 16). The place is its name.
    #[error("unassigned local at {line}:{column}", line = .0.line, column = .0.column)]
    Unassigned(Place),
    /// An allocation failed.
    #[error("out of memory")]
    Memory,
}
