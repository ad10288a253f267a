//! The tasks of flat code: a start for each entry method, and a task behind each cut and part, which
//! carries the variables that are live there.
#![tactic(auto)]

ghost use Rattle.std.specs.Prelude.{◌≡◌, IfOk};
ghost use Rattle.live_vars.specs.Sets.{AreLiveSets};
ghost use Rattle.task_cutter.specs.Tasks.{graph_of};
ghost use Rattle.task_cutter.specs.Numbers.{AreCutBehind};

mod access;
mod method;
mod task;

use flat_code::{Flat, Graph};
use live_vars::LiveSets;
use method::tasks_of;
use std::alloc::{AllocError, Global};

/// Flat code with its tasks. Where a cut or a part names its task by another number than the task's,
/// that stays as it is.
///
/// # Errors
///
/// There is no memory left. Code with more methods than a number of 16 bits can count, or a method
/// with more instructions than one of 32 bits can, counts as code that memory does not hold.
pub fn cut(alloc: Global, flat: Flat, live: &LiveSets) -> Result<Graph, AllocError>
    ensures tasks { IfOk result (λ graph. graph ≡ graph_of flat live.now) }
    ensures behind { IfOk result (λ graph. AreLiveSets flat.methods live.now → AreCutBehind flat graph) }
{
    let tasks = tasks_of(
        alloc,
        flat.fields.as_slice(),
        live.as_slice(),
        flat.methods.as_slice(),
    )?;
    Ok(Graph {
        class: flat.class,
        fields: flat.fields,
        methods: flat.methods,
        tasks,
    })
}
