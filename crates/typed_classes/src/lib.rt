//! Accepted classes are typed.
#![tactic(auto)]

mod law;

pub use law::accepted_classes_are_typed;
