//! Marks keep typed bodies typed.
#![tactic(auto)]

mod law;

pub use law::marked_bodies_stay_typed;
