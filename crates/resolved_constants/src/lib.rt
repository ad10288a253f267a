//! What is resolved of constant expressions has their values.
#![tactic(auto)]

mod law;

pub use law::{constants_are_kept, tests_are_kept};
