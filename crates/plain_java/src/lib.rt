//! Whole calls, one after the other, as plain Java runs them.
#![tactic(auto)]

mod run;
mod serial;

pub use run::plain;
pub use serial::serial_is_plain;
