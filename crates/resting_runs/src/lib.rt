//! Every run of a call comes to a rest.
#![tactic(auto)]

mod law;

pub use law::every_run_rests;
