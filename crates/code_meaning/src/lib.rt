//! What flat code does is what the source means.
#![tactic(auto)]

mod law;

pub use law::{calls_stand_at_their_code, flat_code_means_its_source};
