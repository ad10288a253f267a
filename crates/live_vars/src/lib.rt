//! The live variables of flat code: at each instruction those that some way from there on reads
//! before it writes them.
#![tactic(auto)]

ghost use Rattle.std.specs.Prelude.{◌≡◌, IfOk};
ghost use Rattle.live_vars.specs.Sets.{AreLiveSets};

mod instruction;
mod method;
mod table;
mod walk;

use flat_code::{Flat, GraphMethod};
use method::method_sets;
use sqlite_items::Items;
use std::alloc::{AllocError, Global};

/// The live variables by method and instruction, in rising order.
pub type LiveSets = Items<Items<Items<u32>>>;

fn sets_of(alloc: Global, methods: &[GraphMethod]) -> Result<LiveSets, AllocError>
    ensures { IfOk result (λ sets. AreLiveSets methods.now sets) }
{
    let mut sets = Items::new(alloc);
    for method in methods {
        sets.push(method_sets(alloc, method.code.as_slice())?)?;
    }
    Ok(sets)
}

/// The live variables of each instruction of each method.
///
/// # Errors
///
/// There is no memory left. Code with more instructions than a number of 32 bits can count counts as
/// code that memory does not hold.
pub fn live(alloc: Global, flat: &Flat) -> Result<LiveSets, AllocError>
    ensures { IfOk result (λ sets. AreLiveSets flat.now.methods sets) }
{
    sets_of(alloc, flat.methods.as_slice())
}
