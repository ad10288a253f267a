//! What a run stands on, where keys and cells stand, and the events of a schedule with their words.
#![tactic(auto)]

mod event;
mod slot;

pub use event::{Event, Events, Header, Schedule, Word};
pub use slot::slot_of;

#[cfg(test)]
mod tests;
