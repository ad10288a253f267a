//! The flat code of a class, and its stateful dataflow graph: what they are made of, what instructions,
//! items and tasks mean, and what a verified graph is.
#![tactic(auto)]

mod graph;

pub use graph::{
    FieldKind, Flat, Graph, GraphField, GraphMethod, Instr, MethodKind, OperandType, Task,
    TaskKind, VarType, VariableType,
};
