//! The flat code of a class: what its methods do as instructions, with the tasks that they cut.
#![tactic(auto)]

mod accesses;
mod bodies;
mod classes;
mod completing;
mod constants;
mod draft;
mod early;
mod expressions;
mod instructions;
mod needs;
mod scope;
mod statements;
mod types;

pub use classes::lower;
