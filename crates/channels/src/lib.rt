//! Channels between ports: send buffers that keep what may have to be sent again, and marks of how
//! far each channel was taken.
#![tactic(auto)]

mod mark;
mod marks;
mod outbox;
mod outboxes;
mod queue;
mod sending;

pub use mark::Mark;
pub use marks::{Accept, Marks};
pub use outbox::Outbox;
pub use outboxes::Outboxes;
pub use queue::Queue;
pub use sending::Sending;

#[cfg(test)]
mod tests;
