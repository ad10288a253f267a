//! The statements of accepted classes are typed before their blocks are marked.
#![tactic(auto)]

mod law;

pub use law::statements_are_typed;
