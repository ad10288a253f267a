//! The walk backward with one variable from the instructions that read it.

ghost use Rattle.std.specs.Prelude.{◌≡◌, ◌+◌, ◌≤◌, ◌<◌, [], ◌∷◌, ◌++◌, ◌||◌, suc, length, OnOk};
ghost use Rattle.live_vars.specs.Steps.{AreBefore, HaveRead, is_written, ends_in};
ghost use Rattle.live_vars.specs.Walks.{AreSets, IsWalk, left};

use crate::instruction::is_written;
use flat_code::Instr;
use sqlite_items::Items;
use std::alloc::{AllocError, Global};

/// Whether the last number of a row is this one.
fn ends_in(row: &[u32], number: u32) -> bool
    ensures { result ≡ ends_in row.now number }
{
    match row.last() {
        Some(last) => *last == number,
        None => false,
    }
}

/// Whether the walk ends at an instruction: it writes the variable, or has it already.
fn is_end(instr: &Instr, row: &[u32], variable: u32) -> bool
    ensures { result ≡ (is_written instr.now variable || ends_in row.now variable) }
{
    is_written(instr, variable) || ends_in(row, variable)
}

/// Looks at one instruction: the variable is live there where it is not written, and then the
/// instructions right before it are to be looked at.
fn look_at(
    code: &[Instr],
    before: &[Items<u32>],
    sets: &mut Vec<Items<u32>>,
    work: &mut Vec<u32>,
    variable: u32,
    at: usize,
) -> Result<(), AllocError>
    requires before { AreBefore code.now (length code.now) before.now }
    requires within { at < length code.now }
    requires walk { IsWalk code.now variable sets.old.items (work.old.items ++ at ∷ []) }
    ensures walk { OnOk result (IsWalk code.now variable sets.new.items work.new.items) }
    ensures less { OnOk result (length work.new.items + left variable sets.new.items before.now ≤ length work.old.items + left variable sets.old.items before.now) }
{
    if is_end(&code[at], sets[at].as_slice(), variable) {
        return Ok(());
    }
    sets[at].push(variable)?;
    work.extend_from_slice(before[at].as_slice())?;
    Ok(())
}

/// Adds a variable to the set of each instruction where it is live.
pub fn walk(
    alloc: Global,
    code: &[Instr],
    before: &[Items<u32>],
    readers: &[u32],
    sets: &mut Vec<Items<u32>>,
    variable: u32,
) -> Result<(), AllocError>
    requires before { AreBefore code.now (length code.now) before.now }
    requires readers { HaveRead code.now variable readers.now }
    requires sets { AreSets code.now variable variable sets.old.items }
    ensures { OnOk result (AreSets code.now (suc variable) (suc variable) sets.new.items) }
{
    let mut work = Vec::from_slice(alloc, readers)?;
    while let Some(at) = work.pop() {
        look_at(code, before, sets, &mut work, variable, at as usize)?;
    }
    Ok(())
}
