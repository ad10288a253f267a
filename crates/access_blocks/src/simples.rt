//! Declarations of locals and simple statements, resolved.

ghost use Rattle.std.specs.Prelude.{◌≡◌, IfOk, OnOk, map};
ghost use Rattle.access_blocks.specs.Cursors as cursors;
ghost use Rattle.access_blocks.specs.Resolving as expressions;
ghost use Rattle.access_blocks.specs.ResolvingStatements as spec;

use crate::body::{Expression, Statement, Target};
use crate::conversions::{converted_to, is_long, operated, operated_type, resolved};
use crate::cursor::Cursor;
use crate::expressions::{call, expression};
use crate::resolved::{Resolved, Whole};
use crate::scope::Scope;
use crate::values::{given_to, value_to};
use java_tree::{AssignOp, CallForm, ExprType, Local, Simple, TypeName, Value, ValueType, words};
use sdg_base::BinOp;
use sqlite_items::{Boxed, Items};
use std::alloc::{AllocError, Global};

/// The type of what is declared so.
pub fn declared_type(name: &TypeName) -> ValueType
    ensures { result ≡ spec.declared_type name.now }
{
    words::value_type(name).unwrap_or(ValueType::Int)
}

/// What a local without initialiser starts with.
fn start_expression(alloc: Global, found: ValueType) -> Result<Expression, AllocError>
    ensures { IfOk result (λ e. e ≡ spec.start_expression found) }
{
    match found {
        ValueType::Int => Ok(Expression::Int(0)),
        ValueType::Long => Ok(Expression::Long(0)),
        ValueType::Boolean => Ok(Expression::Bool(false)),
        ValueType::Vector => Ok(Expression::NewVector(Boxed::new(alloc, Expression::Int(0))?)),
    }
}

fn assign(alloc: Global, variable: usize, a: Expression) -> Result<Statement, AllocError>
    ensures { IfOk result (λ s. s ≡ Statement.Assign variable a) }
{
    Ok(Statement::Assign(variable, Boxed::new(alloc, a)?))
}

fn initialised(
    alloc: Global,
    scope: &Scope,
    cursor: &mut Cursor<'_>,
    variable: usize,
    found: ValueType,
    v: &Option<Value>,
) -> Result<Statement, AllocError>
    ensures it { IfOk result (λ s. s ≡ (spec.initialised scope.now variable found v.now cursor.old).it) }
    ensures cursor { OnOk result (cursor.new ≡ (spec.initialised scope.now variable found v.now cursor.old).cursor) }
{
    match v {
        None => {
            let start = start_expression(alloc, found)?;
            assign(alloc, variable, start)
        }
        Some(v) => {
            let target = Target::Variable(variable);
            value_to(alloc, scope, cursor, target, ExprType::Value(found), v)
        }
    }
}

/// A declaration of a local, whose scope begins with its own initialiser (JLS 6.3).
pub fn local(
    alloc: Global,
    scope: &Scope,
    cursor: &mut Cursor<'_>,
    l: &Local,
) -> Result<Statement, AllocError>
    ensures it { IfOk result (λ s. s ≡ (spec.local scope.now l.now cursor.old).it) }
    ensures cursor { OnOk result (cursor.new ≡ (spec.local scope.now l.now cursor.old).cursor) }
{
    let variable = cursor.no_variable();
    let found = declared_type(&l.type_name);
    cursor.declare(l.is_partial, found)?;
    initialised(alloc, scope, cursor, variable, found, &l.value)
}

/// The operator of a compound assignment.
fn operator_of(op: AssignOp) -> Option<BinOp>
    ensures { result ≡ spec.operator_of op }
{
    match op {
        AssignOp::Assign => None,
        AssignOp::Add => Some(BinOp::Add),
        AssignOp::Sub => Some(BinOp::Sub),
        AssignOp::Mul => Some(BinOp::Mul),
        AssignOp::Div => Some(BinOp::Div),
        AssignOp::Rem => Some(BinOp::Rem),
        AssignOp::And => Some(BinOp::And),
        AssignOp::Or => Some(BinOp::Or),
        AssignOp::Xor => Some(BinOp::Xor),
        AssignOp::Shl => Some(BinOp::Shl),
        AssignOp::Shr => Some(BinOp::Shr),
        AssignOp::UShr => Some(BinOp::UShr),
    }
}

/// `x op= e` is `x = (T) (x op e)` with the type of x (JLS 15.26.2).
fn compounded(
    alloc: Global,
    op: BinOp,
    variable: usize,
    found: ExprType,
    a: Resolved,
) -> Result<Statement, AllocError>
    ensures { IfOk result (λ s. s ≡ spec.compounded op variable (expressions.resolved (Expression.Variable variable) found) a) }
{
    let given = operated_type(op, found, a.found);
    let old = resolved(Expression::Variable(variable), found);
    let both = operated(alloc, op, old, a)?;
    let both = converted_to(alloc, found, given, both)?;
    assign(alloc, variable, both)
}

fn compound(
    alloc: Global,
    scope: &Scope,
    cursor: &mut Cursor<'_>,
    op: BinOp,
    variable: usize,
    v: &Value,
) -> Result<Statement, AllocError>
    ensures it { IfOk result (λ s. s ≡ (spec.compound scope.now op variable v.now cursor.old).it) }
    ensures cursor { OnOk result (cursor.new ≡ (spec.compound scope.now op variable v.now cursor.old).cursor) }
{
    let found = cursor.type_of(variable);
    let a = expression(alloc, scope, cursor, &v.expr)?;
    compounded(alloc, op, variable, found, a)
}

fn assigned(
    alloc: Global,
    scope: &Scope,
    cursor: &mut Cursor<'_>,
    op: Option<BinOp>,
    variable: usize,
    v: &Value,
) -> Result<Statement, AllocError>
    ensures it { IfOk result (λ s. s ≡ (spec.assigned scope.now op variable v.now cursor.old).it) }
    ensures cursor { OnOk result (cursor.new ≡ (spec.assigned scope.now op variable v.now cursor.old).cursor) }
{
    match op {
        None => {
            let found = cursor.type_of(variable);
            let target = Target::Variable(variable);
            value_to(alloc, scope, cursor, target, found, v)
        }
        Some(op) => compound(alloc, scope, cursor, op, variable, v),
    }
}

fn one(is_long: bool) -> Expression
    ensures { result ≡ spec.one is_long }
{
    if is_long {
        Expression::Long(1)
    } else {
        Expression::Int(1)
    }
}

fn step(alloc: Global, op: BinOp, variable: usize, found: ExprType) -> Result<Statement, AllocError>
    ensures { IfOk result (λ s. s ≡ spec.step_of op variable found) }
{
    let old = Boxed::new(alloc, Expression::Variable(variable))?;
    let one = Boxed::new(alloc, one(is_long(found)))?;
    assign(alloc, variable, Expression::Binary(op, old, one))
}

/// `++` and `--` (JLS 15.14, 15.15) on the variable whose name comes next.
fn stepped(alloc: Global, cursor: &mut Cursor<'_>, op: BinOp) -> Result<Statement, AllocError>
    ensures it { IfOk result (λ s. s ≡ (spec.stepped op cursor.old).it) }
    ensures cursor { OnOk result (cursor.new ≡ (spec.stepped op cursor.old).cursor) }
{
    let variable = named(cursor);
    let found = cursor.type_of(variable);
    step(alloc, op, variable, found)
}

/// The variable whose name comes next.
fn named(cursor: &mut Cursor<'_>) -> usize
    ensures variable { result ≡ cursors.variable_of cursor.old (cursors.name_here cursor.old) }
    ensures cursor { cursor.new ≡ cursors.behind_name cursor.old }
{
    let declaration = cursor.next_name();
    cursor.variable_of(declaration)
}

fn called_alone(
    alloc: Global,
    scope: &Scope,
    cursor: &mut Cursor<'_>,
    is_global: bool,
    form: &CallForm,
) -> Result<Statement, AllocError>
    ensures it { IfOk result (λ s. s ≡ (spec.called_alone scope.now is_global form.now cursor.old).it) }
    ensures cursor { OnOk result (cursor.new ≡ (spec.called_alone scope.now is_global form.now cursor.old).cursor) }
{
    cursor.next_type();
    let invoked = call(alloc, scope, cursor, form)?;
    let found = ExprType::Unknown;
    let whole = Whole { invoked, found };
    given_to(alloc, is_global, Target::Dropped, found, whole)
}

/// A simple statement.
pub fn simple(
    alloc: Global,
    scope: &Scope,
    cursor: &mut Cursor<'_>,
    s: &Simple,
) -> Result<Statement, AllocError>
    ensures it { IfOk result (λ it. it ≡ (spec.simple_of scope.now s.now cursor.old).it) }
    ensures cursor { OnOk result (cursor.new ≡ (spec.simple_of scope.now s.now cursor.old).cursor) }
{
    match s {
        Simple::Assign(_, op, v) => {
            let variable = named(cursor);
            assigned(alloc, scope, cursor, operator_of(*op), variable, v)
        }
        Simple::PostIncrement(_) | Simple::PreIncrement(_) => stepped(alloc, cursor, BinOp::Add),
        Simple::PostDecrement(_) | Simple::PreDecrement(_) => stepped(alloc, cursor, BinOp::Sub),
        Simple::Call(is_global, form) => called_alone(alloc, scope, cursor, *is_global, form),
    }
}

/// Simple statements.
#[tactic(auto, using(crate::proofs::Lists::fold_map))]
pub fn simples(
    alloc: Global,
    scope: &Scope,
    cursor: &mut Cursor<'_>,
    all: &[Simple],
) -> Result<Items<Statement>, AllocError>
    ensures it { IfOk result (λ it. it ≡ (spec.list_of (map (spec.simple_of scope.now) all.now) cursor.old).it) }
    ensures cursor { OnOk result (cursor.new ≡ (spec.list_of (map (spec.simple_of scope.now) all.now) cursor.old).cursor) }
{
    let mut made = Items::new(alloc);
    for s in all {
        made.push(simple(alloc, scope, cursor, s)?)?;
    }
    Ok(made)
}
