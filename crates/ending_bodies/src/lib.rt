//! A body whose end is reached has no result.
#![tactic(auto)]

mod law;

pub use law::bodies_complete;
