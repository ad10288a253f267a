//! Tokens, and the syntax tree of a Java class with every token that it keeps.
#![tactic(auto)]

mod method_kinds;
mod token;
mod tree;
mod types;
pub mod words;

pub use method_kinds::{MethodKind, kind_of};
pub use token::{Kind, Place, Reserved, Symbol, Token, Tokens};
pub use tree::{
    AssignOp, Block, BlockItem, CallForm, Class, Expr, Field, FieldModifier, ForHeader, ForInit,
    Import, Local, Member, Method, Modifier, Param, QualifiedName, ResultType, Simple, Stmt,
    TypeName, Value,
};
pub use types::{Declaration, ExprType, Typed, Types, ValueType, discard};
