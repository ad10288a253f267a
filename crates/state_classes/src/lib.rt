//! The classes that hold state.
#![tactic(auto)]

mod access;
mod any_state;
mod arguments;
mod counter;
mod entries;
mod held;
mod law;
mod matrix;
mod method;
mod object;
mod plan;
mod signature;
mod state_class;
mod table;

pub use access::Access;
pub use any_state::AnyState;
pub use counter::Counter;
pub use held::Held;
pub use law::keyed_calls_keep_to_their_part;
pub use matrix::Matrix;
pub use method::{Method, is_keyed, method_named};
pub use plan::Plan;
pub use signature::{Signature, state_method, vector_method};
pub use state_class::StateClass;
pub use table::Table;

#[cfg(test)]
mod tests;
