//! What the runs of a task's items have in common with the runs from whole frames.
#![tactic(auto)]

mod law;

pub use law::{live_variables_are_enough, what_tasks_carry_is_enough};
