//! Statements, resolved.

ghost use Rattle.std.specs.Prelude.{◌≡◌, IfOk, OnOk, map};
ghost use Rattle.java_tree.specs.declared.tree.ForInit.TheVariants as inits;
ghost use Rattle.access_blocks.specs.Resolving as expressions;
ghost use Rattle.access_blocks.specs.ResolvingStatements as spec;

use crate::body::{Expression, Statement, Target};
use crate::cursor::Cursor;
use crate::expressions::expression;
use crate::scope::Scope;
use crate::simples::{local, simple, simples};
use crate::values::value_to;
use java_tree::{BlockItem, Expr, ExprType, ForHeader, ForInit, Local, Simple, Stmt, Value};
use sqlite_items::{Boxed, Items};
use std::alloc::{AllocError, Global};

fn test(
    alloc: Global,
    scope: &Scope,
    cursor: &mut Cursor<'_>,
    e: &Expr,
) -> Result<Boxed<Expression>, AllocError>
    ensures it { IfOk result (λ it. it ≡ (expressions.expression_of scope.now e.now cursor.old).it.expression) }
    ensures cursor { OnOk result (cursor.new ≡ (expressions.expression_of scope.now e.now cursor.old).cursor) }
{
    let r = expression(alloc, scope, cursor, e)?;
    Boxed::new(alloc, r.expression)
}

fn condition(
    alloc: Global,
    scope: &Scope,
    cursor: &mut Cursor<'_>,
    e: &Option<Expr>,
) -> Result<Option<Boxed<Expression>>, AllocError>
    ensures it { IfOk result (λ it. it ≡ (spec.condition scope.now e.now cursor.old).it) }
    ensures cursor { OnOk result (cursor.new ≡ (spec.condition scope.now e.now cursor.old).cursor) }
{
    match e {
        None => Ok(None),
        Some(e) => Ok(Some(test(alloc, scope, cursor, e)?)),
    }
}

fn one_local(
    alloc: Global,
    scope: &Scope,
    cursor: &mut Cursor<'_>,
    l: &Local,
) -> Result<Items<Statement>, AllocError>
    ensures it { IfOk result (λ it. it ≡ (spec.init_of scope.now (inits.Local l.now) cursor.old).it) }
    ensures cursor { OnOk result (cursor.new ≡ (spec.init_of scope.now (inits.Local l.now) cursor.old).cursor) }
{
    let mut made = Items::new(alloc);
    made.push(local(alloc, scope, cursor, l)?)?;
    Ok(made)
}

fn init(
    alloc: Global,
    scope: &Scope,
    cursor: &mut Cursor<'_>,
    i: &ForInit,
) -> Result<Items<Statement>, AllocError>
    ensures it { IfOk result (λ it. it ≡ (spec.init_of scope.now i.now cursor.old).it) }
    ensures cursor { OnOk result (cursor.new ≡ (spec.init_of scope.now i.now cursor.old).cursor) }
{
    match i {
        ForInit::Nothing => Ok(Items::new(alloc)),
        ForInit::Local(l) => one_local(alloc, scope, cursor, l),
        ForInit::Simples(all) => simples(alloc, scope, cursor, all.as_slice()),
    }
}

/// The update of a `for`: the empty statement where none is written, so that a loop without an update is a `while`.
fn updates(
    alloc: Global,
    scope: &Scope,
    cursor: &mut Cursor<'_>,
    all: &[Simple],
) -> Result<Items<Statement>, AllocError>
    ensures it { IfOk result (λ it. it ≡ (spec.update_of scope.now all.now cursor.old).it) }
    ensures cursor { OnOk result (cursor.new ≡ (spec.update_of scope.now all.now cursor.old).cursor) }
{
    if all.is_empty() {
        let mut made = Items::new(alloc);
        made.push(Statement::Block(Items::new(alloc)))?;
        return Ok(made);
    }
    simples(alloc, scope, cursor, all)
}

fn returned(
    alloc: Global,
    scope: &Scope,
    cursor: &mut Cursor<'_>,
    wanted: ExprType,
    v: &Option<Boxed<Value>>,
) -> Result<Statement, AllocError>
    ensures it { IfOk result (λ it. it ≡ (spec.return_of scope.now wanted v.now cursor.old).it) }
    ensures cursor { OnOk result (cursor.new ≡ (spec.return_of scope.now wanted v.now cursor.old).cursor) }
{
    match v {
        None => Ok(Statement::Return(None)),
        Some(v) => value_to(alloc, scope, cursor, Target::Returned, wanted, v.get()),
    }
}

/// The statements of a block, in a method with a result of the type that is wanted.
#[cycle(statements)]
#[tactic(auto, using(crate::proofs::Lists::fold_map))]
pub fn block(
    alloc: Global,
    scope: &Scope,
    cursor: &mut Cursor<'_>,
    wanted: ExprType,
    items: &[BlockItem],
) -> Result<Items<Statement>, AllocError>
    ensures it { IfOk result (λ it. it ≡ (spec.list_of (map (spec.item_of scope.now wanted) items.now) cursor.old).it) }
    ensures cursor { OnOk result (cursor.new ≡ (spec.list_of (map (spec.item_of scope.now wanted) items.now) cursor.old).cursor) }
{
    let mut made = Items::new(alloc);
    for i in items {
        made.push(item(alloc, scope, cursor, wanted, i)?)?;
    }
    Ok(made)
}

#[cycle(statements)]
fn item(
    alloc: Global,
    scope: &Scope,
    cursor: &mut Cursor<'_>,
    wanted: ExprType,
    i: &BlockItem,
) -> Result<Statement, AllocError>
    ensures it { IfOk result (λ it. it ≡ (spec.item_of scope.now wanted i.now cursor.old).it) }
    ensures cursor { OnOk result (cursor.new ≡ (spec.item_of scope.now wanted i.now cursor.old).cursor) }
{
    match i {
        BlockItem::Local(l) => local(alloc, scope, cursor, l.get()),
        BlockItem::Stmt(s) => statement(alloc, scope, cursor, wanted, s),
    }
}

/// A statement in a box.
#[cycle(statements)]
fn boxed(
    alloc: Global,
    scope: &Scope,
    cursor: &mut Cursor<'_>,
    wanted: ExprType,
    s: &Stmt,
) -> Result<Boxed<Statement>, AllocError>
    ensures it { IfOk result (λ it. it ≡ (spec.statement_of scope.now wanted s.now cursor.old).it) }
    ensures cursor { OnOk result (cursor.new ≡ (spec.statement_of scope.now wanted s.now cursor.old).cursor) }
{
    let made = statement(alloc, scope, cursor, wanted, s)?;
    Boxed::new(alloc, made)
}

/// In the text the update stands before the body.
#[cycle(statements)]
fn for_loop(
    alloc: Global,
    scope: &Scope,
    cursor: &mut Cursor<'_>,
    wanted: ExprType,
    h: &ForHeader,
    body: &Stmt,
) -> Result<Statement, AllocError>
    ensures it { IfOk result (λ it. it ≡ (spec.for_of scope.now h.now (spec.statement_of scope.now wanted body.now) cursor.old).it) }
    ensures cursor { OnOk result (cursor.new ≡ (spec.for_of scope.now h.now (spec.statement_of scope.now wanted body.now) cursor.old).cursor) }
{
    let start = init(alloc, scope, cursor, &h.init)?;
    let holds = condition(alloc, scope, cursor, &h.test)?;
    let update = updates(alloc, scope, cursor, h.update.as_slice())?;
    let body = boxed(alloc, scope, cursor, wanted, body)?;
    Ok(Statement::Loop(start, holds, update, body))
}

/// A statement in a method with a result of the type that is wanted.
#[cycle(statements)]
fn statement(
    alloc: Global,
    scope: &Scope,
    cursor: &mut Cursor<'_>,
    wanted: ExprType,
    s: &Stmt,
) -> Result<Statement, AllocError>
    ensures it { IfOk result (λ it. it ≡ (spec.statement_of scope.now wanted s.now cursor.old).it) }
    ensures cursor { OnOk result (cursor.new ≡ (spec.statement_of scope.now wanted s.now cursor.old).cursor) }
{
    match s {
        Stmt::Block(items) => {
            let made = block(alloc, scope, cursor, wanted, items.as_slice())?;
            Ok(Statement::Block(made))
        }
        Stmt::Empty => Ok(Statement::Block(Items::new(alloc))),
        Stmt::Simple(s) => simple(alloc, scope, cursor, s.get()),
        Stmt::If(holds, first, second) => {
            let holds = test(alloc, scope, cursor, holds.get())?;
            let first = boxed(alloc, scope, cursor, wanted, first.get())?;
            match second {
                None => Ok(Statement::If(holds, first, None)),
                Some(second) => {
                    let second = boxed(alloc, scope, cursor, wanted, second.get())?;
                    Ok(Statement::If(holds, first, Some(second)))
                }
            }
        }
        Stmt::While(holds, body) => {
            let holds = test(alloc, scope, cursor, holds.get())?;
            let body = boxed(alloc, scope, cursor, wanted, body.get())?;
            let start = Items::new(alloc);
            let update = Items::new(alloc);
            Ok(Statement::Loop(start, Some(holds), update, body))
        }
        Stmt::For(h, body) => for_loop(alloc, scope, cursor, wanted, h.get(), body.get()),
        Stmt::Break => Ok(Statement::Break),
        Stmt::Continue => Ok(Statement::Continue),
        Stmt::Return(v) => returned(alloc, scope, cursor, wanted, v),
    }
}
