//! What is made of expressions and calls.

use crate::body::{Access, Expression};
use java_tree::ExprType;

/// An expression with its type, and whether it is the literal of a least number, which is its own negative.
#[derive(Drop)]
pub struct Resolved {
    pub expression: Expression,
    pub found: ExprType,
    pub is_minimum: bool,
}

/// What a call is: an expression, `set` on the vector in a variable, or an access to a field.
#[derive(Drop)]
pub enum Invoked {
    Value(Expression),
    Sets(usize, Expression, Expression),
    Accesses(Access),
}

/// What stands in the place of a value, with its type.
#[derive(Drop)]
pub struct Whole {
    pub invoked: Invoked,
    pub found: ExprType,
}
