//! A class as flat code, and as a stateful dataflow graph: its fields, its methods with their
//! instructions, and its tasks.

use sdg_base::{BinOp, ClassName, Name, Num, UnOp};
use sqlite_items::Items;
use state_classes::Method;

/// How a field is distributed: in disjoint parts by key, or as instances that may differ.
#[derive(Clone, Copy, PartialEq, Eq)]
pub enum FieldKind {
    Partitioned,
    Partial,
}

/// A field of the class.
#[derive(Drop)]
pub struct GraphField {
    pub name: Name,
    pub class: ClassName,
    pub kind: FieldKind,
}

/// Who calls a method: the calls of a run, another method, or a join of parts.
#[derive(Clone, Copy, PartialEq, Eq)]
pub enum MethodKind {
    Entry,
    Helper,
    Merge,
}

/// The type of a value that a variable or a result may have.
#[derive(Clone, Copy, PartialEq, Eq)]
pub enum VarType {
    Int,
    Long,
    Boolean,
    Vector,
}

/// The type of a variable: one value, or the values that the parts of a visit brought.
#[derive(Clone, Copy, PartialEq, Eq)]
pub enum VariableType {
    One(VarType),
    Collection(VarType),
}

/// The type of the operands of a binary operator; of a shift, the type of the left one.
#[derive(Clone, Copy, PartialEq, Eq)]
pub enum OperandType {
    Int,
    Long,
    Boolean,
}

/// An instruction of the flat code. It works on a stack of values and on variables by number.
/// Methods, tasks, variables and instructions count from 0.
#[derive(Drop)]
pub enum Instr {
    /// Pushes an `int`.
    Int(i32),
    /// Pushes a `long`.
    Long(i64),
    /// Pushes a `boolean`.
    Bool(bool),
    /// Pushes a copy of a variable.
    Load(u32),
    /// Pops into a variable.
    Store(u32),
    /// Drops the top.
    Pop,
    /// Pops the right operand and then the left, and pushes the operator's value.
    Bin(BinOp, OperandType),
    /// Pops an operand, and pushes the operator's value.
    Un(UnOp),
    /// Pops a number and pushes it as one of the type.
    Cast(Num),
    /// Goes to an instruction of the method.
    Jump(u32),
    /// Pops a `boolean`, and goes to an instruction of the method where it is false.
    IfFalse(u32),
    /// Spends a turn, or ends the call where none is left.
    Turn,
    /// Pops how many elements, and pushes a `Vector` of so many zeros.
    NewVector,
    /// Pushes how many elements the `Vector` in a variable has.
    VectorSize(u32),
    /// Pops an index, and pushes that element of the `Vector` in a variable.
    VectorGet(u32),
    /// Pops a value and then an index, and sets that element of the `Vector` in a variable.
    VectorSet(u32),
    /// Pushes how many members the collection in a variable has.
    CollectionLength(u32),
    /// Pops an index, and pushes that member of the collection in a variable.
    CollectionItem(u32),
    /// Pops an index, and pushes how many elements that member of the collection in a variable has.
    CollectionSize(u32),
    /// Tests that the index on the top is one of the collection in a variable, and leaves it.
    CollectionCheck(u32),
    /// Pops an index of an element and then one of a member, and pushes that element of that member
    /// of the collection in a variable.
    CollectionGet(u32),
    /// Pops the arguments of the method with this number, calls it, and pushes its result unless it
    /// is void.
    Call(u16),
    /// Pushes the key that the item carries.
    Key,
    /// Pops the arguments, calls the method of the field with this name, and pushes its result unless
    /// it is void.
    Access(Name, Method),
    /// Ends the task, and goes on with the task of this number. A keyed task pops its key first.
    Cut(u32),
    /// Ends the visit with the popped value, or without one after a void access. The part goes to the
    /// join task of this number.
    Part(u32),
    /// Calls the merge method with this number on what the parts brought, and pushes its result.
    Merge(u16),
    /// Ends the method with the popped value.
    Return,
    /// Ends a void method.
    ReturnVoid,
}

/// A method: its code, who calls it, its name, how many parameters it has, which are its first
/// variables, the type of its result unless it is void, and the types of its variables.
#[derive(Drop)]
pub struct GraphMethod {
    pub code: Items<Instr>,
    pub kind: MethodKind,
    pub name: Name,
    pub params: u32,
    pub result: Option<VarType>,
    pub vars: Items<VariableType>,
}

/// What begins a task: a call, work on a slot or on an instance, a visit of one instance, or the join
/// of parts.
#[derive(Clone, Copy, PartialEq, Eq)]
pub enum TaskKind {
    Start,
    Keyed,
    Local,
    Visit,
    Join,
}

/// A task: the index of its first instruction in its method's code, the name of the field that it
/// accesses, what begins it, the number of its method, and the variables that its items carry.
#[derive(Drop)]
pub struct Task {
    pub at: u32,
    pub field: Option<Name>,
    pub kind: TaskKind,
    pub method: u16,
    pub vars: Items<u32>,
}

/// A class as flat code, whose tasks are named by `Cut` and `Part` and are not yet made.
#[derive(Drop)]
pub struct Flat {
    pub class: Name,
    pub fields: Items<GraphField>,
    pub methods: Items<GraphMethod>,
}

/// A class as a graph.
#[derive(Drop)]
pub struct Graph {
    pub class: Name,
    pub fields: Items<GraphField>,
    pub methods: Items<GraphMethod>,
    pub tasks: Items<Task>,
}
