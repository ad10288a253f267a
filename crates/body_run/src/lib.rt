//! Bodies of methods run: what their expressions give and what their statements do.
#![tactic(auto)]

mod application;
mod calls;
mod completion;
mod expressions;
mod field_state;
mod machine;
mod operators;
mod running;
mod simple_statements;
mod statements;
mod stop;
mod vectors;

pub use completion::Completion;
pub use field_state::FieldState;
pub use machine::Machine;
pub use running::{evaluate, evaluate_all, pass_mark, run, run_all};
pub use stop::Stop;
pub use vectors::MOST_ELEMENTS;

#[cfg(test)]
mod tests;
