//! Tables by instruction and by variable.

ghost use Rattle.std.specs.Prelude.{◌≡◌, ℕ, ◌+◌, ◌≤◌, ◌<◌, ◌^◌, [], ◌∷◌, length, replicate, OnOk, IfOk, option_to_list};
ghost use Rattle.flat_code.specs.Ways.{IsIn, next_of, reads};
ghost use Rattle.live_vars.specs.Steps.{AreNoted, AreBefore, AreReaders, AreReadBelow};

use crate::instruction::{behind, read, target};
use flat_code::Instr;
use sqlite_items::Items;
use std::alloc::{AllocError, Global};

/// So many rows with nothing in them.
pub fn empty_rows(alloc: Global, count: usize) -> Result<Vec<Items<u32>>, AllocError>
    ensures { IfOk result (λ rows. rows.items ≡ replicate count []) }
{
    let mut rows = Vec::new(alloc);
    for _ in 0..count {
        rows.push(Items::new(alloc))?;
    }
    Ok(rows)
}

/// Adds a number to a row, where the row is there.
fn note_in(table: &mut Vec<Items<u32>>, row: u32, number: u32) -> Result<(), AllocError>
    ensures { OnOk result (AreNoted (row ∷ []) number table.old.items table.new.items) }
{
    let row = row as usize;
    if row < table.len() {
        table[row].push(number)?;
    }
    Ok(())
}

/// Adds a number to a row, where there is one.
fn note(table: &mut Vec<Items<u32>>, row: Option<u32>, number: u32) -> Result<(), AllocError>
    ensures { OnOk result (AreNoted (option_to_list row) number table.old.items table.new.items) }
{
    match row {
        Some(row) => note_in(table, row, number),
        None => Ok(()),
    }
}

/// Adds an instruction to the row of each that may come next.
fn note_next(table: &mut Vec<Items<u32>>, instr: &Instr, at: u32) -> Result<(), AllocError>
    requires { at + 1 < 2 ^ 32 }
    ensures { OnOk result (AreNoted (next_of at instr.now) at table.old.items table.new.items) }
{
    note(table, behind(instr, at), at)?;
    note(table, target(instr), at)?;
    Ok(())
}

/// By instruction, those that may come right before it.
pub fn befores(alloc: Global, code: &[Instr]) -> Result<Vec<Items<u32>>, AllocError>
    requires { length code.now < 2 ^ 32 }
    ensures { IfOk result (λ table. AreBefore code.now (length code.now) table.items) }
{
    let mut table = empty_rows(alloc, code.len())?;
    for (at, instr) in code.iter().enumerate() {
        note_next(&mut table, instr, at as u32)?;
    }
    Ok(table)
}

/// A number above that of the variable that is read.
fn read_end(instr: &Instr) -> usize
    ensures above { (v : ℕ) → IsIn v (reads instr.now) → v < result }
    ensures few { result ≤ 2 ^ 32 }
{
    match read(instr) {
        Some(variable) => variable as usize + 1,
        None => 0,
    }
}

/// A number above those of all variables that are read.
fn variables_end(code: &[Instr]) -> usize
    ensures above { AreReadBelow code.now (length code.now) result }
    ensures few { result ≤ 2 ^ 32 }
{
    let mut end = 0usize;
    for instr in code {
        end = end.max(read_end(instr));
    }
    end
}

/// By variable, the instructions that read it.
pub fn readers(alloc: Global, code: &[Instr]) -> Result<Vec<Items<u32>>, AllocError>
    requires { length code.now < 2 ^ 32 }
    ensures readers { IfOk result (λ table. AreReaders code.now (length code.now) table.items) }
    ensures few { IfOk result (λ table. length table.items ≤ 2 ^ 32) }
{
    let mut table = empty_rows(alloc, variables_end(code))?;
    for (at, instr) in code.iter().enumerate() {
        note(&mut table, read(instr), at as u32)?;
    }
    Ok(table)
}
