//! Reachability, definite assignment and missing returns in the methods of a class (JLS 8.4.7, 14.22, 16).
#![tactic(auto)]

mod bits;
mod branches;
mod checking;
mod constants;
mod error;
mod expressions;
mod finding;
mod judging;
mod laws;
mod locals;
mod members;
mod names;
mod numbers;
mod parts;
mod simples;
mod statements;
mod verdict;
mod walk;

pub use checking::flow;
pub use error::FlowError;
pub use laws::passes_each_token;
