use super::*;
use access_blocks::{Access, Body, Choice, Expression, Halt, Statement, Target};
use java_tree::MethodKind;
use sdg_base::{BinOp, ClassName, Outcome, UnOp, Val};
use sqlite_items::{Boxed, Items};
use state_classes::{AnyState, Method};
use std::alloc::{AllocError, Global};
use std::test::*;

fn binary(
    alloc: Global,
    op: BinOp,
    first: Expression,
    second: Expression,
) -> Result<Expression, AllocError> {
    let first = Boxed::new(alloc, first)?;
    Ok(Expression::Binary(op, first, Boxed::new(alloc, second)?))
}

/// `1 / 0`
fn throwing(alloc: Global) -> Result<Expression, AllocError> {
    binary(alloc, BinOp::Div, Expression::Int(1), Expression::Int(0))
}

fn list(alloc: Global, item: Statement) -> Result<Items<Statement>, AllocError> {
    let mut items = Items::new(alloc);
    items.push(item)?;
    Ok(items)
}

fn body(alloc: Global, kind: MethodKind, value: Expression) -> Result<Body, AllocError> {
    let value = Boxed::new(alloc, value)?;
    Ok(Body {
        kind,
        arity: 1,
        variables: Items::new(alloc),
        statements: list(alloc, Statement::Return(Some(value)))?,
    })
}

/// A method that returns its argument, and a merge method that returns how many values were gathered.
fn methods(alloc: Global) -> Result<Items<Body>, AllocError> {
    let mut methods = Items::new(alloc);
    methods.push(body(alloc, MethodKind::Helper, Expression::Variable(0))?)?;
    methods.push(body(alloc, MethodKind::Merge, Expression::GatheredLength)?)?;
    Ok(methods)
}

/// Two variables, 0 and a vector of two elements; one gathered vector, of one element; and a counter.
fn machine(alloc: Global, turns: u32) -> Result<Machine, AllocError> {
    let mut gathered = Items::new(alloc);
    gathered.push(Val::Vector(Items::from_slice(alloc, &[5])?))?;
    let longs = Val::Vector(Items::from_slice(alloc, &[7, 8])?);
    Ok(Machine {
        variables: vec![in alloc; Val::Int(0), longs]?,
        key: Val::Long(9),
        gathered,
        turns,
        fields: vec![in alloc; FieldState::whole(AnyState::new(alloc, ClassName::Counter))]?,
        instance: 0,
    })
}

fn call(alloc: Global, argument: Expression) -> Result<Expression, AllocError> {
    let mut arguments = Items::new(alloc);
    arguments.push(argument)?;
    Ok(Expression::Call(0, arguments))
}

/// Calls a method of the counter, whose answer goes to the first variable.
fn counted(alloc: Global, method: Method, argument: Option<i64>) -> Result<Statement, AllocError> {
    let mut args = Items::new(alloc);
    if let Some(argument) = argument {
        args.push(Expression::Long(argument))?;
    }
    let access = Access {
        target: Target::Variable(0),
        field: 0,
        choice: Choice::Instance,
        method,
        args,
    };
    Ok(Statement::Access(Boxed::new(alloc, access)?))
}

/// A value is assigned, the counter is raised, and then something throws.
fn broken_off(alloc: Global) -> Result<Statement, AllocError> {
    let mut items = list(alloc, counted(alloc, Method::Add, Some(2))?)?;
    items.push(Statement::Assign(0, Boxed::new(alloc, Expression::Int(6))?))?;
    items.push(Statement::Evaluate(Boxed::new(alloc, throwing(alloc)?)?))?;
    items.push(Statement::Assign(0, Boxed::new(alloc, Expression::Int(7))?))?;
    Ok(Statement::Block(items))
}

#[test]
fn a_change_before_an_exception_stays(rt: HostRuntime) -> Result<(), Fail> {
    let alloc = rt.alloc();
    let methods = methods(alloc)?;
    let mut machine = machine(alloc, 4)?;
    let _ended = run(alloc, methods.as_slice(), &broken_off(alloc)?, &mut machine)?;
    let read = counted(alloc, Method::Get, None)?;
    let _read = run(alloc, methods.as_slice(), &read, &mut machine)?;
    assert!(rt; matches!(machine.variables.first(), Some(Val::Long(2))));
    Ok(())
}

#[test]
fn a_mark_takes_its_key_and_a_turn(rt: HostRuntime) -> Result<(), Fail> {
    let alloc = rt.alloc();
    let methods = methods(alloc)?;
    let mut machine = machine(alloc, 1)?;
    let key = Some(Expression::Long(3));
    assert_eq!(rt;
        pass_mark(alloc, methods.as_slice(), &key, &mut machine),
        Ok(())
    );
    assert!(rt; matches!(machine.key, Val::Long(3)));
    assert_eq!(rt; machine.turns, 0);
    let passed = pass_mark(alloc, methods.as_slice(), &None, &mut machine);
    assert_eq!(rt; passed, Err(Stop::Halt(Halt::OutOfTurns)));
    Ok(())
}

#[test]
fn a_partial_field_grows(rt: HostRuntime) -> Result<(), Fail> {
    let alloc = rt.alloc();
    let mut field = FieldState::instances(Vec::new(alloc));
    assert!(rt; field.part(0).is_none());
    field.grow(AnyState::new(alloc, ClassName::Counter))?;
    assert!(rt; field.part(0).is_some());
    assert_eq!(rt; field.width(), 1);
    let mut args = Items::new(alloc);
    args.push(Val::Long(5))?;
    assert!(rt; field.call(alloc, 1, Method::Add, &args)?.is_none());
    assert!(rt; field.call(alloc, 0, Method::Add, &args)?.is_some());
    Ok(())
}

#[test]
fn a_body_runs_from_its_start(rt: HostRuntime) -> Result<(), Fail> {
    let alloc = rt.alloc();
    let methods = methods(alloc)?;
    let body = body(alloc, MethodKind::Helper, Expression::Variable(0))?;
    let args = vec![in alloc; Val::Int(4)]?;
    let mut machine = Machine::start(alloc, &body, args, Items::new(alloc), 5, Vec::new(alloc))?;
    let mut arguments = Items::new(alloc);
    arguments.push(Expression::Variable(0))?;
    arguments.push(call(alloc, Expression::Int(7))?)?;
    let given = evaluate_all(alloc, methods.as_slice(), arguments.as_slice(), &machine, 5);
    let text = format!(in alloc; "{given:?}")?;
    assert_eq!(rt; text.as_str(), "Ok((Items { items: [Int(4), Int(7)] }, 4))");
    let statements = body.statements.as_slice();
    let completion = run_all(alloc, methods.as_slice(), statements, &mut machine)?;
    assert!(rt; matches!(completion.outcome(), Outcome::Value(Val::Int(4))));
    Ok(())
}

/// As many minus signs, which are even in number, before an expression.
fn negated(alloc: Global, times: usize, inner: Expression) -> Result<Expression, AllocError> {
    let mut expression = inner;
    for _ in 0..times {
        expression = Expression::Unary(UnOp::Minus, Boxed::new(alloc, expression)?);
    }
    Ok(expression)
}

#[test]
fn calls_stand_deep_in_each_other(rt: HostRuntime) -> Result<(), Fail> {
    let alloc = rt.alloc();
    let machine = machine(alloc, 0)?;
    let mut methods = Items::new(alloc);
    for next in 1..=255 {
        let mut arguments = Items::new(alloc);
        arguments.push(Expression::Variable(0))?;
        let called = negated(alloc, 40, Expression::Call(next, arguments))?;
        methods.push(body(alloc, MethodKind::Helper, called)?)?;
    }
    methods.push(body(alloc, MethodKind::Helper, Expression::Variable(0))?)?;
    let first = call(alloc, Expression::Int(4))?;
    let given = evaluate(alloc, methods.as_slice(), &first, &machine, 300);
    assert!(rt; matches!(given, Ok((Val::Int(4), 44))));
    Ok(())
}
