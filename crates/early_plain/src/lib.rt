//! Whole calls, one after the other, as plain Java runs them.
#![tactic(auto)]

mod fits;
mod machine;
mod run;
mod scope;
mod serial;
mod site;
mod sums;
mod tables;

pub use fits::calls_fit;
pub use run::plain;
pub use serial::serial_is_plain;
pub use site::{Site, is_ended, is_same};
