//! A cell: it runs the items that it takes, and keeps what it gives until that is safe elsewhere.
#![tactic(auto)]

mod cell;
mod state;

pub use cell::Cell;
pub use state::CellState;

#[cfg(test)]
mod tests;
