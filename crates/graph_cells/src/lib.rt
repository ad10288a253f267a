//! A cell of any class's graph: it takes the items of its channels, each once and in its order, keeps
//! the parts that wait for others of their call, and sends what its items give.
#![tactic(auto)]

mod cell;
mod gather;
mod parts;
mod processing;
mod sending;
mod state;

pub use cell::Cell;
pub use gather::Gather;
pub use state::CellState;
