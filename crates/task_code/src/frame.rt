//! Where a run of code stands.

use crate::stack::Stack;
use sdg_base::Val;

/// The index of an instruction, and what instructions work on: a stack, variables and turns.
#[derive(Drop)]
pub struct Frame {
    pub at: usize,
    pub stack: Stack,
    pub variables: Vec<Val>,
    pub turns: u32,
}
