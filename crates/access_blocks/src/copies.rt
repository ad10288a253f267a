//! Expressions and statements again.

ghost use Rattle.std.specs.Prelude.{◌≡◌, IfOk};

use crate::body::{Access, Expression, Gather, Mark, Statement};
use sqlite_items::{Boxed, Items};
use std::alloc::{AllocError, Global};

/// The same expression again.
#[cycle(copied_expressions)]
pub fn copy_expression(alloc: Global, e: &Expression) -> Result<Expression, AllocError>
    ensures { IfOk result (λ copy. copy ≡ e.now) }
{
    match e {
        Expression::Nothing => Ok(Expression::Nothing),
        Expression::Int(number) => Ok(Expression::Int(*number)),
        Expression::Long(number) => Ok(Expression::Long(*number)),
        Expression::Bool(truth) => Ok(Expression::Bool(*truth)),
        Expression::Variable(variable) => Ok(Expression::Variable(*variable)),
        Expression::CarriedKey => Ok(Expression::CarriedKey),
        Expression::Unary(op, a) => Ok(Expression::Unary(*op, copy_boxed(alloc, a)?)),
        Expression::Binary(op, a, b) => {
            let a = copy_boxed(alloc, a)?;
            let b = copy_boxed(alloc, b)?;
            Ok(Expression::Binary(*op, a, b))
        }
        Expression::Cast(to, a) => Ok(Expression::Cast(*to, copy_boxed(alloc, a)?)),
        Expression::Conditional(test, a, b) => {
            let test = copy_boxed(alloc, test)?;
            let a = copy_boxed(alloc, a)?;
            let b = copy_boxed(alloc, b)?;
            Ok(Expression::Conditional(test, a, b))
        }
        Expression::NewVector(size) => Ok(Expression::NewVector(copy_boxed(alloc, size)?)),
        Expression::VectorSize(variable) => Ok(Expression::VectorSize(*variable)),
        Expression::VectorElement(variable, at) => Ok(Expression::VectorElement(
            *variable,
            copy_boxed(alloc, at)?,
        )),
        Expression::GatheredLength => Ok(Expression::GatheredLength),
        Expression::Gathered(at) => Ok(Expression::Gathered(copy_boxed(alloc, at)?)),
        Expression::GatheredSize(at) => Ok(Expression::GatheredSize(copy_boxed(alloc, at)?)),
        Expression::GatheredElement(at, element) => {
            let at = copy_boxed(alloc, at)?;
            let element = copy_boxed(alloc, element)?;
            Ok(Expression::GatheredElement(at, element))
        }
        Expression::Call(method, args) => Ok(Expression::Call(
            *method,
            copy_expressions(alloc, args.as_slice())?,
        )),
        Expression::Merge(method) => Ok(Expression::Merge(*method)),
    }
}

/// The same expression again, in a box.
#[cycle(copied_expressions)]
pub fn copy_boxed(alloc: Global, e: &Boxed<Expression>) -> Result<Boxed<Expression>, AllocError>
    ensures { IfOk result (λ copy. copy ≡ e.now) }
{
    let copy = copy_expression(alloc, e.get())?;
    Boxed::new(alloc, copy)
}

/// The same expressions again.
#[cycle(copied_expressions)]
pub fn copy_expressions(alloc: Global, all: &[Expression]) -> Result<Items<Expression>, AllocError>
    ensures { IfOk result (λ copy. copy ≡ all.now) }
{
    let mut copy = Items::new(alloc);
    for e in all {
        copy.push(copy_expression(alloc, e)?)?;
    }
    Ok(copy)
}

fn copy_access(alloc: Global, access: &Access) -> Result<Boxed<Access>, AllocError>
    ensures { IfOk result (λ copy. copy ≡ access.now) }
{
    let args = copy_expressions(alloc, access.args.as_slice())?;
    let copy = Access {
        target: access.target,
        field: access.field,
        choice: access.choice,
        method: access.method,
        args,
    };
    Boxed::new(alloc, copy)
}

fn copy_gather(alloc: Global, gather: &Gather) -> Result<Boxed<Gather>, AllocError>
    ensures { IfOk result (λ copy. copy ≡ gather.now) }
{
    let args = copy_expressions(alloc, gather.args.as_slice())?;
    let copy = Gather {
        field: gather.field,
        method: gather.method,
        args,
    };
    Boxed::new(alloc, copy)
}

fn copy_mark(alloc: Global, mark: &Mark) -> Result<Boxed<Mark>, AllocError>
    ensures { IfOk result (λ copy. copy ≡ mark.now) }
{
    let key = match &mark.key {
        None => None,
        Some(key) => Some(copy_expression(alloc, key)?),
    };
    let field = mark.field;
    Boxed::new(alloc, Mark { field, key })
}

/// The same, if there is one.
pub fn copy_option(
    alloc: Global,
    e: &Option<Boxed<Expression>>,
) -> Result<Option<Boxed<Expression>>, AllocError>
    ensures { IfOk result (λ copy. copy ≡ e.now) }
{
    match e {
        None => Ok(None),
        Some(e) => Ok(Some(copy_boxed(alloc, e)?)),
    }
}

/// The same statement again.
#[cycle(copied_statements)]
pub fn copy_statement(alloc: Global, st: &Statement) -> Result<Statement, AllocError>
    ensures { IfOk result (λ copy. copy ≡ st.now) }
{
    match st {
        Statement::Assign(variable, a) => {
            Ok(Statement::Assign(*variable, copy_boxed(alloc, a)?))
        }
        Statement::SetElement(variable, at, element) => {
            let at = copy_boxed(alloc, at)?;
            let element = copy_boxed(alloc, element)?;
            Ok(Statement::SetElement(*variable, at, element))
        }
        Statement::Evaluate(a) => Ok(Statement::Evaluate(copy_boxed(alloc, a)?)),
        Statement::Access(access) => Ok(Statement::Access(copy_access(alloc, access.get())?)),
        Statement::Gather(gather) => Ok(Statement::Gather(copy_gather(alloc, gather.get())?)),
        Statement::Marked(mark, body) => {
            let mark = copy_mark(alloc, mark.get())?;
            let body = boxed_statement(alloc, body)?;
            Ok(Statement::Marked(mark, body))
        }
        Statement::Opened(body) => Ok(Statement::Opened(boxed_statement(alloc, body)?)),
        Statement::Block(items) => {
            Ok(Statement::Block(copy_statements(alloc, items.as_slice())?))
        }
        Statement::If(test, first, second) => {
            let test = copy_boxed(alloc, test)?;
            let first = boxed_statement(alloc, first)?;
            match second {
                None => Ok(Statement::If(test, first, None)),
                Some(second) => {
                    let second = boxed_statement(alloc, second)?;
                    Ok(Statement::If(test, first, Some(second)))
                }
            }
        }
        Statement::Loop(start, test, update, body) => {
            let start = copy_statements(alloc, start.as_slice())?;
            let test = copy_option(alloc, test)?;
            let update = copy_statements(alloc, update.as_slice())?;
            let body = boxed_statement(alloc, body)?;
            Ok(Statement::Loop(start, test, update, body))
        }
        Statement::Break => Ok(Statement::Break),
        Statement::Continue => Ok(Statement::Continue),
        Statement::Return(a) => Ok(Statement::Return(copy_option(alloc, a)?)),
    }
}

#[cycle(copied_statements)]
fn boxed_statement(alloc: Global, st: &Boxed<Statement>) -> Result<Boxed<Statement>, AllocError>
    ensures { IfOk result (λ copy. copy ≡ st.now) }
{
    let copy = copy_statement(alloc, st.get())?;
    Boxed::new(alloc, copy)
}

/// The same statements again.
#[cycle(copied_statements)]
pub fn copy_statements(alloc: Global, all: &[Statement]) -> Result<Items<Statement>, AllocError>
    ensures { IfOk result (λ copy. copy ≡ all.now) }
{
    let mut copy = Items::new(alloc);
    for st in all {
        copy.push(copy_statement(alloc, st)?)?;
    }
    Ok(copy)
}
