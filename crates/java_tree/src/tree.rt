//! The syntax tree of a class: a type for each production, with parentheses as nodes.

use crate::token::Place;
use sdg_base::{BinOp, Name, Num, UnOp};
use sqlite_items::{Boxed, Items};

/// Names with dots between them, as a package's.
#[derive(Drop)]
pub struct QualifiedName {
    pub first: Name,
    pub others: Items<Name>,
}

/// An import, with whether it is static and whether it ends in `.*`.
#[derive(Drop)]
pub struct Import {
    pub is_static: bool,
    pub name: QualifiedName,
    pub is_on_demand: bool,
}

/// A modifier of a class or a method.
#[derive(Clone, Copy, Debug, PartialEq, Eq)]
pub enum Modifier {
    Public,
    Private,
    Static,
}

/// A modifier of a field, or an annotation that stands among them.
#[derive(Clone, Copy, Debug, PartialEq, Eq)]
pub enum FieldModifier {
    Partitioned,
    Partial,
    Public,
    Private,
}

/// A file with its one class, and where each of its tokens begins, in text order.
#[derive(Drop)]
pub struct Class {
    pub package: Option<QualifiedName>,
    pub imports: Items<Import>,
    pub modifiers: Items<Modifier>,
    pub name: Name,
    pub members: Items<Member>,
    pub places: Items<Place>,
}

/// A member of a class.
#[derive(Drop)]
pub enum Member {
    Field(Field),
    Method(Method),
}

/// `modifiers type_name name = new maker();`
#[derive(Drop)]
pub struct Field {
    pub modifiers: Items<FieldModifier>,
    pub type_name: Name,
    pub name: Name,
    pub maker: Name,
}

/// A type as it is written.
#[derive(Debug, Drop)]
pub enum TypeName {
    Int,
    Long,
    Boolean,
    Named(Name),
}

/// What stands before a method's name.
#[derive(Debug, Drop)]
pub enum ResultType {
    Void,
    Type(TypeName),
}

/// A parameter, with whether `@Collection` stands before it and `[]` after its type.
#[derive(Debug, Drop)]
pub struct Param {
    pub is_collection: bool,
    pub type_name: TypeName,
    pub is_array: bool,
    pub name: Name,
}

/// A method with its body.
#[derive(Drop)]
pub struct Method {
    pub modifiers: Items<Modifier>,
    pub result: ResultType,
    pub name: Name,
    pub params: Items<Param>,
    pub body: Block,
}

/// What stands between braces.
pub type Block = Items<BlockItem>;

/// A declaration of a local, or a statement.
#[cycle(statements)]
#[derive(Drop)]
pub enum BlockItem {
    Local(Boxed<Local>),
    Stmt(Stmt),
}

/// A local with its initialiser, if it has one, and whether `@Partial` stands before it.
#[derive(Drop)]
pub struct Local {
    pub is_partial: bool,
    pub type_name: TypeName,
    pub name: Name,
    pub value: Option<Value>,
}

/// A statement (JLS 14). What is large stands in boxes, so that lists of statements are small.
#[cycle(statements)]
#[derive(Drop)]
pub enum Stmt {
    Block(Items<BlockItem>),
    Empty,
    Simple(Boxed<Simple>),
    If(Boxed<Expr>, Boxed<Stmt>, Option<Boxed<Stmt>>),
    While(Boxed<Expr>, Boxed<Stmt>),
    For(Boxed<ForHeader>, Boxed<Stmt>),
    Break,
    Continue,
    Return(Option<Boxed<Value>>),
}

/// The header of a `for`: its start, its condition and its update (JLS 14.14.1).
#[derive(Drop)]
pub struct ForHeader {
    pub init: ForInit,
    pub test: Option<Expr>,
    pub update: Items<Simple>,
}

/// What stands first in the header of a `for`.
#[derive(Drop)]
pub enum ForInit {
    Nothing,
    Local(Local),
    Simples(Items<Simple>),
}

/// `=`, or an operator with it (JLS 15.26).
#[derive(Clone, Copy, Debug, PartialEq, Eq)]
pub enum AssignOp {
    Assign,
    Add,
    Sub,
    Mul,
    Div,
    Rem,
    And,
    Or,
    Xor,
    Shl,
    Shr,
    UShr,
}

/// A statement that is an expression: an assignment, a step up or down behind or before its name, or
/// a call, with whether `@Global` stands before it.
#[derive(Drop)]
pub enum Simple {
    Assign(Name, AssignOp, Value),
    PostIncrement(Name),
    PostDecrement(Name),
    PreIncrement(Name),
    PreDecrement(Name),
    Call(bool, CallForm),
}

/// An expression, with whether `@Global` stands before it.
#[cycle(expressions)]
#[derive(Drop)]
pub struct Value {
    pub is_global: bool,
    pub expr: Expr,
}

/// An expression (JLS 15). A number is as in its token. What is large stands in boxes.
#[cycle(expressions)]
#[derive(Drop)]
pub enum Expr {
    Conditional(Boxed<Expr>, Boxed<Expr>, Boxed<Expr>),
    Binary(BinOp, Boxed<Expr>, Boxed<Expr>),
    Unary(UnOp, Boxed<Expr>),
    Cast(Num, Boxed<Expr>),
    Number {
        digits: u64,
        decimal: bool,
        long: bool,
    },
    Bool(bool),
    Paren(Boxed<Expr>),
    New(Name, Boxed<Expr>),
    Name(Name),
    Index(Name, Boxed<Expr>),
    Member(Name, Boxed<Name>),
    Call(Boxed<CallForm>),
}

/// A call: of a method of the class, of a method of a named object, or of a member's.
#[cycle(expressions)]
#[derive(Drop)]
pub enum CallForm {
    Own(Name, Items<Value>),
    Of(Name, Name, Items<Value>),
    OfMember(Name, Boxed<Expr>, Name, Items<Value>),
}
