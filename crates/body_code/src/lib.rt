//! The bodies of methods as flat code: what their parts are typed as, and which instructions they give.
#![tactic(auto)]

mod callee;

pub use callee::Callee;
