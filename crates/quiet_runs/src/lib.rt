//! What is run outside of blocks knows nothing of the fields.
#![tactic(auto)]

mod law;

pub use law::quiet_runs_know_no_fields;
