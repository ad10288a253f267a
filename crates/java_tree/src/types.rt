//! What the rules of types add to a tree: the type of each expression and the declaration of each name.

use crate::tree::Class;
use sdg_base::ClassName;
use sqlite_items::Items;

/// A type that a variable, a parameter or a result may have.
#[derive(Clone, Copy, Debug, PartialEq, Eq)]
pub enum ValueType {
    Int,
    Long,
    Boolean,
    Vector,
}

/// What an expression stands for.
#[derive(Clone, Copy, Debug, PartialEq, Eq)]
pub enum ExprType {
    /// A rule is broken in it, or in a declaration that it rests on. It fits everywhere.
    Unknown,
    /// The answer of a method without a result.
    Void,
    /// A value.
    Value(ValueType),
    /// A collection of values.
    Collection(ValueType),
    /// A field.
    State(ClassName),
}

/// What a name stands for. Fields, methods, the parameters of a method and its locals are numbered
/// each from 0 in text order.
#[derive(Clone, Copy, Debug, PartialEq, Eq)]
pub enum Declaration {
    Field(usize),
    Method(usize),
    Parameter(usize),
    Local(usize),
}

/// The type of each expression in text order, an outer one before its inner ones, and in text order
/// the declaration of each name of a field, method, parameter or local that is used. A call that is a
/// statement counts as an expression.
#[derive(Drop)]
pub struct Types {
    pub exprs: Items<ExprType>,
    pub names: Items<Declaration>,
}

/// A class with its types.
#[derive(Drop)]
pub struct Typed {
    pub class: Class,
    pub types: Types,
}

/// Lets a class go. Its tree is dropped nowhere else.
pub fn discard(_class: Class) {}
