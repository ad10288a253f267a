//! The stateful dataflow graph of a class: its fields, its methods as flat code, and its tasks.

use early_tables::Method;
use sdg_base::{BinOp, ClassName, Name, Num};
use sqlite_items::Items;

/// How a field is distributed: in disjoint parts by key, or as instances that may differ.
#[derive(Clone, Copy, Debug, PartialEq, Eq)]
pub enum FieldKind {
    Partitioned,
    Partial,
}

/// A field of the class.
#[derive(Debug, Drop)]
pub struct GraphField {
    pub name: Name,
    pub class: ClassName,
    pub kind: FieldKind,
}

/// Who calls a method: the calls of a run, another method, or a join of parts.
#[derive(Clone, Copy, Debug, PartialEq, Eq)]
pub enum MethodKind {
    Entry,
    Helper,
    Merge,
}

/// The type of a variable or of a result, where there is one.
#[derive(Clone, Copy, Debug, PartialEq, Eq)]
pub enum VarType {
    Int,
    Long,
    Boolean,
    Vector,
}

/// An instruction of the flat code. It works on a stack of values and on variables by number.
/// Fields, tasks and variables count from 0.
#[derive(Clone, Copy, Debug, PartialEq, Eq)]
pub enum Instr {
    /// Pushes an `int`.
    Int(i32),
    /// Pushes a copy of a variable.
    Load(u32),
    /// Pops into a variable.
    Store(u32),
    /// Drops the top.
    Pop,
    /// Pops the right operand and then the left, both of the type, and pushes the operator's value.
    Bin(BinOp, Num),
    /// Pops a number and pushes it as one of the type.
    Cast(Num),
    /// Spends a turn, or ends the call where none is left.
    Turn,
    /// Pushes the key that the item carries.
    Key,
    /// Pops the arguments, calls the method of the field, and pushes its result unless it is void.
    Access(u16, Method),
    /// Ends the task, and goes on with the task of this number. A keyed task pops its key first.
    Cut(u32),
    /// Ends the method with the popped value.
    Return,
    /// Ends a void method.
    ReturnVoid,
}

/// A method: its code, its parameters, which are its first variables, its result unless it is void,
/// and the types of its variables.
#[derive(Debug, Drop)]
pub struct GraphMethod {
    pub code: Items<Instr>,
    pub kind: MethodKind,
    pub name: Name,
    pub params: u32,
    pub result: Option<VarType>,
    pub vars: Items<VarType>,
}

/// What begins a task: a call, work on a slot or on an instance, a visit of one instance, or the join
/// of parts.
#[derive(Clone, Copy, Debug, PartialEq, Eq)]
pub enum TaskKind {
    Start,
    Keyed,
    Local,
    Visit,
    Join,
}

/// A task: the index of its first instruction in its method's code, the field that it accesses, and
/// the variables that its items carry, in rising order.
#[derive(Debug, Drop)]
pub struct Task {
    pub at: u32,
    pub field: Option<u16>,
    pub kind: TaskKind,
    pub method: u16,
    pub vars: Items<u32>,
}

/// A class as a graph. Methods and tasks have numbers from 0 in their order.
#[derive(Debug, Drop)]
pub struct Graph {
    pub class: Name,
    pub fields: Items<GraphField>,
    pub methods: Items<GraphMethod>,
    pub tasks: Items<Task>,
}
