//! Accepted classes have typed bodies.
#![tactic(auto)]

mod law;

pub use law::{expressions_are_typed, parts_are_typed, parts_stay, wholes_are_typed};
