//! Classes of the straight form as graphs: flat code, cut into tasks.
#![tactic(auto)]

ghost use Rattle.std.specs.Prelude.{◌≡◌, map, IfOk};
ghost use Rattle.early_forms.specs.Names.{IsProper};
ghost use Rattle.early_cutter.specs.Lowering.{table_field};
ghost use Rattle.early_cutter.specs.Cutting.{graph_of};

mod cutting;
mod laws;
mod liveness;
mod lowering;
mod point;
mod sums;

use cutting::tasks_of;
use early_forms::StraightClass;
use early_task_code::{FieldKind, Graph, GraphField};
pub use laws::{
    every_call_is_safe, every_run_agrees, every_run_keeps_its_steps, every_run_runs_again,
    graph_simulates, ordered_runs_are_plain, plain_runs_in_turn, serial_runs_are_plain,
};
use lowering::lowered_methods;
use sdg_base::{ClassName, Name};
use sqlite_items::Items;
use std::alloc::{AllocError, Global};

fn table_fields(alloc: Global, names: &[Name]) -> Result<Items<GraphField>, AllocError>
    ensures { IfOk result (λ fields. fields ≡ map table_field names.now) }
{
    let mut fields = Items::new(alloc);
    for name in names {
        let name = Items::from_slice(alloc, name.as_slice())?;
        fields.push(GraphField {
            name,
            class: ClassName::Table,
            kind: FieldKind::Partitioned,
        })?;
    }
    Ok(fields)
}

/// The graph of a class: its methods as flat code with a cut at each mark, and a task for each start
/// and each cut, which carries the variables that are live there.
///
/// # Errors
///
/// There is no memory left. A class that has more instructions, variables or tasks than a number of
/// 32 bits can count counts as one that memory does not hold.
pub fn graph_of(alloc: Global, class: &StraightClass) -> Result<Graph, AllocError>
    requires { IsProper class.now }
    ensures { IfOk result (λ graph. graph ≡ graph_of class.now) }
{
    let fields = class.fields.as_slice();
    let methods = lowered_methods(alloc, fields, class.methods.as_slice())?;
    let tasks = tasks_of(alloc, methods.as_slice())?;
    Ok(Graph {
        class: Items::from_slice(alloc, class.name.as_slice())?,
        fields: table_fields(alloc, fields)?,
        methods,
        tasks,
    })
}
