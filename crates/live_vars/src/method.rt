//! The live variables of one method.

ghost use Rattle.std.specs.Prelude.{◌<◌, ◌^◌, length, IfOk};
ghost use Rattle.live_vars.specs.Sets.{HasSets};

use crate::table::{befores, empty_rows, readers};
use crate::walk::walk;
use flat_code::Instr;
use sqlite_items::Items;
use std::alloc::{AllocError, Global};

/// The sets of code whose instructions a number of 32 bits can count.
fn sets_of_code(alloc: Global, code: &[Instr]) -> Result<Vec<Items<u32>>, AllocError>
    requires { length code.now < 2 ^ 32 }
    ensures { IfOk result (λ sets. HasSets code.now sets.items) }
{
    let before = befores(alloc, code)?;
    let readers = readers(alloc, code)?;
    let mut sets = empty_rows(alloc, code.len())?;
    for (variable, reading) in readers.iter().enumerate() {
        walk(
            alloc,
            code,
            before.as_slice(),
            reading.as_slice(),
            &mut sets,
            variable as u32,
        )?;
    }
    Ok(sets)
}

/// The live variables of each instruction.
pub fn method_sets(alloc: Global, code: &[Instr]) -> Result<Items<Items<u32>>, AllocError>
    ensures { IfOk result (λ sets. HasSets code.now sets) }
{
    if code.len() > u32::MAX as usize {
        return Err(AllocError);
    }
    Ok(Items::from_vec(sets_of_code(alloc, code)?))
}
