//! Flat code in tasks, and the engine that runs a task on an item.
#![tactic(auto)]

mod context;
mod graph;
mod instructions;
mod out;
mod run;
mod stack;
mod variables;

pub use graph::{
    FieldKind, Graph, GraphField, GraphMethod, Instr, MethodKind, Task, TaskKind, VarType,
};
pub use out::Out;
pub use run::run_task;
