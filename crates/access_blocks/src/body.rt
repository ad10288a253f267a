//! The bodies of methods as every meaning of a class reads them: names are numbers, conversions and start values are
//! written out, and marks stand before the statements that begin a block.

use java_tree::{MethodKind, ValueType};
use sdg_base::{BinOp, ClassName, Num, UnOp};
use sqlite_items::{Boxed, Items};
use state_classes::Method;

/// An expression without state access (JLS 15). Operands have the types that their operators take: where Java
/// converts, a cast stands (JLS 5.1.2, 5.6). The variables of a method are numbered: its parameters, then its locals
/// in text order, but for `@Partial` locals, which have none.
#[cycle(expressions)]
#[derive(Drop)]
pub enum Expression {
    /// What stands where no value can: no accepted class has it.
    Nothing,
    Int(i32),
    Long(i64),
    Bool(bool),
    Variable(usize),
    /// The key that was evaluated at the mark of the block.
    CarriedKey,
    Unary(UnOp, Boxed<Expression>),
    Binary(BinOp, Boxed<Expression>, Boxed<Expression>),
    Cast(Num, Boxed<Expression>),
    Conditional(Boxed<Expression>, Boxed<Expression>, Boxed<Expression>),
    /// `new Vector(..)`
    NewVector(Boxed<Expression>),
    /// The length of the vector in a variable.
    VectorSize(usize),
    /// An element of the vector in a variable.
    VectorElement(usize, Boxed<Expression>),
    /// How many values were gathered.
    GatheredLength,
    /// One of the gathered values.
    Gathered(Boxed<Expression>),
    /// The length of a gathered vector.
    GatheredSize(Boxed<Expression>),
    /// An element of a gathered vector: which vector, and which element.
    GatheredElement(Boxed<Expression>, Boxed<Expression>),
    /// A call of a helper by its number.
    Call(usize, Items<Expression>),
    /// A call of a merge method by its number, on the gathered values.
    Merge(usize),
}

/// Where the answer of a state access goes.
#[derive(Clone, Copy, Debug, PartialEq, Eq)]
pub enum Target {
    Dropped,
    Variable(usize),
    Returned,
}

/// How an access chooses the part of its field that it works on: by a key, which is the value of a literal, a
/// variable or any other expression, or as an instance that the one who runs it picks.
#[derive(Clone, Copy, Debug, PartialEq, Eq)]
pub enum Choice {
    Literal(i64),
    Variable(usize),
    Compound,
    Instance,
}

/// A statement (JLS 14).
#[cycle(statements)]
#[derive(Drop)]
pub enum Statement {
    Assign(usize, Boxed<Expression>),
    /// `v.set(index, element)` on the vector in a variable.
    SetElement(usize, Boxed<Expression>, Boxed<Expression>),
    /// An expression whose value is dropped.
    Evaluate(Boxed<Expression>),
    /// A call of a method of a field on one part of it.
    Access(Boxed<Access>),
    /// A call of a method of a partial field on each of its instances, whose answers are gathered.
    Gather(Boxed<Gather>),
    /// A block begins: the statement, before which a mark stands.
    Marked(Boxed<Mark>, Boxed<Statement>),
    /// A compound statement with a mark inside.
    Opened(Boxed<Statement>),
    Block(Items<Statement>),
    If(Boxed<Expression>, Boxed<Statement>, Option<Boxed<Statement>>),
    /// A `for` or a `while`: its start, its condition, its update and its body. A `while` has no start and no update; each
    /// `for` has an update, of the empty statement where none is written.
    Loop(Items<Statement>, Option<Boxed<Expression>>, Items<Statement>, Boxed<Statement>),
    Break,
    Continue,
    Return(Option<Boxed<Expression>>),
}

/// A call of a method of a field on one part of it. Fields are numbered in text order.
#[derive(Drop)]
pub struct Access {
    pub target: Target,
    pub field: usize,
    pub choice: Choice,
    pub method: Method,
    pub args: Items<Expression>,
}

/// A call of a method of a partial field on each of its instances.
#[derive(Drop)]
pub struct Gather {
    pub field: usize,
    pub method: Method,
    pub args: Items<Expression>,
}

/// What is evaluated where a block begins: a key where the field is partitioned, as a `long`.
#[derive(Drop)]
pub struct Mark {
    pub field: usize,
    pub key: Option<Expression>,
}

/// A method: its kind, how many parameters it has, the types of its variables by number, and its statements. The
/// parameter of a merge method has the type of its members.
#[derive(Drop)]
pub struct Body {
    pub kind: MethodKind,
    pub arity: usize,
    pub variables: Items<ValueType>,
    pub statements: Items<Statement>,
}

/// A field: its class, and whether it is partial. One that is not is partitioned.
#[derive(Clone, Copy, Debug, PartialEq, Eq)]
pub struct Holder {
    pub class: ClassName,
    pub is_partial: bool,
}

/// The fields and the methods of a class by number, in text order.
#[derive(Drop)]
pub struct Program {
    pub fields: Items<Holder>,
    pub methods: Items<Body>,
}
