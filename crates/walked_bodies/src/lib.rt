//! The bodies of accepted classes are read in step with the walks of the rules.
#![tactic(auto)]

mod law;

pub use law::bodies_are_walked;
