//! Expressions, resolved.

ghost use Rattle.std.specs.Prelude.{◌≡◌, IfOk, OnOk, map};
ghost use Rattle.access_blocks.specs.Cursors as cursors;
ghost use Rattle.access_blocks.specs.Resolving as spec;

use crate::body::{Choice, Expression};
use crate::calls::{
    accessed, chosen, class_at, header_at, member_call, own, params_by, params_of, vector_call,
};
use crate::conversions::{
    INT, conditional, gathered, is_minimum, literal, negated, new_vector, number_type, operated,
    resolved, taken,
};
use crate::cursor::Cursor;
use crate::resolved::{Invoked, Resolved};
use crate::scope::Scope;
use java_tree::{CallForm, Declaration, Expr, ExprType, Value};
use sqlite_items::Items;
use state_classes::{method_named, state_method, vector_method};
use std::alloc::{AllocError, Global};

/// What stands where a call is a part of an expression.
fn expression_in(invoked: Invoked) -> Expression
    ensures { result ≡ spec.expression_in invoked }
{
    match invoked {
        Invoked::Value(a) => a,
        _ => Expression::Nothing,
    }
}

fn number(digits: u64, decimal: bool, long: bool, found: ExprType) -> Resolved
    ensures { result ≡ spec.number digits decimal long found }
{
    Resolved {
        expression: literal(digits, long),
        found,
        is_minimum: is_minimum(digits, decimal, long),
    }
}

/// An expression.
#[cycle(expressions)]
pub fn expression(
    alloc: Global,
    scope: &Scope,
    cursor: &mut Cursor<'_>,
    e: &Expr,
) -> Result<Resolved, AllocError>
    ensures it { IfOk result (λ r. r ≡ (spec.expression_of scope.now e.now cursor.old).it) }
    ensures cursor { OnOk result (cursor.new ≡ (spec.expression_of scope.now e.now cursor.old).cursor) }
{
    let found = cursor.next_type();
    match e {
        Expr::Conditional(test, first, second) => {
            let test = expression(alloc, scope, cursor, test.get())?;
            let first = expression(alloc, scope, cursor, first.get())?;
            let second = expression(alloc, scope, cursor, second.get())?;
            Ok(resolved(conditional(alloc, found, test, first, second)?, found))
        }
        Expr::Binary(op, left, right) => {
            let left = expression(alloc, scope, cursor, left.get())?;
            let right = expression(alloc, scope, cursor, right.get())?;
            Ok(resolved(operated(alloc, *op, left, right)?, found))
        }
        Expr::Unary(op, operand) => {
            let operand = expression(alloc, scope, cursor, operand.get())?;
            Ok(resolved(negated(alloc, *op, operand)?, found))
        }
        Expr::Cast(to, operand) => {
            let operand = expression(alloc, scope, cursor, operand.get())?;
            Ok(resolved(taken(alloc, number_type(*to), operand)?, found))
        }
        Expr::Number {
            digits,
            decimal,
            long,
        } => Ok(number(*digits, *decimal, *long, found)),
        Expr::Bool(truth) => Ok(resolved(Expression::Bool(*truth), found)),
        Expr::Paren(inner) => {
            let inner = expression(alloc, scope, cursor, inner.get())?;
            Ok(resolved(inner.expression, found))
        }
        Expr::New(_, size) => {
            let size = expression(alloc, scope, cursor, size.get())?;
            Ok(resolved(new_vector(alloc, size)?, found))
        }
        Expr::Name(_) => {
            let declaration = cursor.next_name();
            let variable = cursor.variable_of(declaration);
            Ok(resolved(Expression::Variable(variable), found))
        }
        Expr::Index(_, at) => {
            cursor.next_name();
            let at = expression(alloc, scope, cursor, at.get())?;
            Ok(resolved(gathered(alloc, at)?, found))
        }
        Expr::Member(_, _) => {
            cursor.next_name();
            Ok(resolved(Expression::GatheredLength, found))
        }
        Expr::Call(form) => {
            let invoked = call(alloc, scope, cursor, form.get())?;
            Ok(resolved(expression_in(invoked), found))
        }
    }
}

/// A call.
#[cycle(expressions)]
pub fn call(
    alloc: Global,
    scope: &Scope,
    cursor: &mut Cursor<'_>,
    form: &CallForm,
) -> Result<Invoked, AllocError>
    ensures it { IfOk result (λ r. r ≡ (spec.call_of scope.now form.now cursor.old).it) }
    ensures cursor { OnOk result (cursor.new ≡ (spec.call_of scope.now form.now cursor.old).cursor) }
{
    let declaration = cursor.next_name();
    match form {
        CallForm::Own(_, args) => {
            let header = header_at(scope, declaration);
            let args = arguments(alloc, scope, cursor, params_of(header), args.as_slice())?;
            Ok(own(declaration, header, args))
        }
        CallForm::Of(_, name, args) => match declaration {
            Some(Declaration::Field(field)) => {
                access(
                    alloc,
                    scope,
                    cursor,
                    field,
                    name.as_slice(),
                    args.as_slice(),
                )
            }
            _ => {
                let variable = cursor.variable_of(declaration);
                of_vector(
                    alloc,
                    scope,
                    cursor,
                    variable,
                    name.as_slice(),
                    args.as_slice(),
                )
            }
        },
        CallForm::OfMember(_, at, name, args) => {
            let at = expression(alloc, scope, cursor, at.get())?;
            let params = params_by(alloc, vector_method(name.as_slice()))?;
            let args = arguments(alloc, scope, cursor, params.as_slice(), args.as_slice())?;
            let at = taken(alloc, INT, at)?;
            member_call(alloc, at, name.as_slice(), args)
        }
    }
}

/// A call of a method of a field, behind its name.
#[cycle(expressions)]
fn access(
    alloc: Global,
    scope: &Scope,
    cursor: &mut Cursor<'_>,
    field: usize,
    name: &[u8],
    args: &[Value],
) -> Result<Invoked, AllocError>
    ensures it { IfOk result (λ r. r ≡ (spec.access_step scope.now field name.now (map (spec.value_of scope.now) args.now) cursor.old).it) }
    ensures cursor { OnOk result (cursor.new ≡ (spec.access_step scope.now field name.now (map (spec.value_of scope.now) args.now) cursor.old).cursor) }
{
    let choice = chosen_here(cursor);
    let class = class_at(scope, field);
    let params = params_by(alloc, state_method(class, name))?;
    let args = arguments(alloc, scope, cursor, params.as_slice(), args)?;
    Ok(accessed(field, choice, method_named(class, name), args))
}

/// How the access that comes next chooses its part.
fn chosen_here(cursor: &mut Cursor<'_>) -> Choice
    ensures choice { result ≡ spec.chosen cursor.old (cursors.site_here cursor.old) }
    ensures cursor { cursor.new ≡ cursors.behind_site cursor.old }
{
    let site = cursor.next_site();
    chosen(cursor, site)
}

/// A call of a method of the vector in a variable, behind its name.
#[cycle(expressions)]
fn of_vector(
    alloc: Global,
    scope: &Scope,
    cursor: &mut Cursor<'_>,
    variable: usize,
    name: &[u8],
    args: &[Value],
) -> Result<Invoked, AllocError>
    ensures it { IfOk result (λ r. r ≡ (spec.vector_step variable name.now (map (spec.value_of scope.now) args.now) cursor.old).it) }
    ensures cursor { OnOk result (cursor.new ≡ (spec.vector_step variable name.now (map (spec.value_of scope.now) args.now) cursor.old).cursor) }
{
    let params = params_by(alloc, vector_method(name))?;
    let args = arguments(alloc, scope, cursor, params.as_slice(), args)?;
    vector_call(alloc, variable, name, args)
}

/// The type of a parameter.
fn param_at(params: &[ExprType], at: usize) -> ExprType
    ensures { result ≡ spec.param_at params.now at }
{
    params.get(at).copied().unwrap_or(ExprType::Unknown)
}

/// Arguments, each as its parameter wants it.
#[cycle(expressions)]
#[tactic(auto, using(crate::proofs::Lists::fold_map))]
fn arguments(
    alloc: Global,
    scope: &Scope,
    cursor: &mut Cursor<'_>,
    params: &[ExprType],
    args: &[Value],
) -> Result<Items<Expression>, AllocError>
    ensures it { IfOk result (λ all. all ≡ (spec.arguments params.now (map (spec.value_of scope.now) args.now) cursor.old).it) }
    ensures cursor { OnOk result (cursor.new ≡ (spec.arguments params.now (map (spec.value_of scope.now) args.now) cursor.old).cursor) }
{
    let mut all = Items::new(alloc);
    for v in args {
        let given = value(alloc, scope, cursor, v)?;
        let wanted = param_at(params, all.len());
        all.push(taken(alloc, wanted, given)?)?;
    }
    Ok(all)
}

/// A value.
#[cycle(expressions)]
fn value(
    alloc: Global,
    scope: &Scope,
    cursor: &mut Cursor<'_>,
    v: &Value,
) -> Result<Resolved, AllocError>
    ensures it { IfOk result (λ r. r ≡ (spec.value_of scope.now v.now cursor.old).it) }
    ensures cursor { OnOk result (cursor.new ≡ (spec.value_of scope.now v.now cursor.old).cursor) }
{
    expression(alloc, scope, cursor, &v.expr)
}
