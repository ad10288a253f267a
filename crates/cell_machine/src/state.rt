//! What a cell holds.

use early_tables::{Access, Method, Table};
use sdg_base::{Outcome, Vals};
use std::alloc::{AllocError, Global};

/// Nothing, as in a cell without a field, or an object of the class of its field.
#[derive(Drop)]
pub enum CellState {
    Nothing,
    Table(Table),
}

impl Access for CellState {
    ghost use Rattle.cell_machine.specs.Held.{state_held};

    ghost held = { state_held };

    fn call(&mut self, alloc: Global, method: Method, args: &Vals) -> Result<Outcome, AllocError> {
        match self {
            CellState::Nothing => unreachable!(),
            CellState::Table(table) => table.call(alloc, method, args),
        }
    }
}
