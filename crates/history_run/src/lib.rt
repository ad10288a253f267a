//! The annotated source of a class, stepped along the history of a text.
#![tactic(auto)]

mod making;
mod replayed;
mod steps;
mod text;

pub use replayed::{Replayed, Results};
pub use steps::ILLEGAL;
pub use text::replay;
