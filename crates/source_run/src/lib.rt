//! The annotated source of a class, stepped by blocks.
#![tactic(auto)]

mod begins;
mod blocks;
mod call_state;
mod effects;
mod frames;
mod joins;
mod moves;
mod numbers;
mod refusals;
mod runs;
mod source;
mod started;
mod step_error;
mod turns;
mod visits;

pub use source::Source;
pub use step_error::StepError;

#[cfg(test)]
mod tests;
