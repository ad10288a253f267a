use super::*;
use access_blocks::{
    Access, Body, Choice, Expression, Gather, Holder, Mark, Program, Statement, Target,
};
use java_tree::{MethodKind, ValueType};
use sdg_base::{Call, Calls, ClassName, Outcome, Step, Val};
use sqlite_items::{Boxed, Items};
use state_classes::Method;
use std::alloc::{AllocError, Global};
use std::test::*;

/// The mark before a block on an instance of field 0.
fn mark(alloc: Global) -> Result<Boxed<Mark>, AllocError> {
    Boxed::new(
        alloc,
        Mark {
            field: 0,
            key: None,
        },
    )
}

/// `global(@Global, n).add(x)`
fn adding(alloc: Global) -> Result<Statement, AllocError> {
    let mut args = Items::new(alloc);
    args.push(Expression::Variable(0))?;
    let access = Access {
        target: Target::Dropped,
        field: 0,
        choice: Choice::Instance,
        method: Method::Add,
        args,
    };
    let access = Statement::Access(Boxed::new(alloc, access)?);
    Ok(Statement::Marked(mark(alloc)?, Boxed::new(alloc, access)?))
}

/// Adds to an instance, asks each, and returns the last of the answers.
fn statements(alloc: Global) -> Result<Items<Statement>, AllocError> {
    let mut statements = Items::new(alloc);
    statements.push(adding(alloc)?)?;
    let gather = Gather {
        field: 0,
        method: Method::Get,
        args: Items::new(alloc),
    };
    statements.push(Statement::Gather(Boxed::new(alloc, gather)?))?;
    let last = Boxed::new(alloc, Expression::Int(1))?;
    let value = Boxed::new(alloc, Expression::Gathered(last))?;
    statements.push(Statement::Return(Some(value)))?;
    Ok(statements)
}

/// A class with one partial field, and one method with one parameter.
fn program(alloc: Global) -> Result<Program, AllocError> {
    let mut fields = Items::new(alloc);
    fields.push(Holder {
        class: ClassName::Counter,
        is_partial: true,
    })?;
    let mut variables = Items::new(alloc);
    variables.push(ValueType::Long)?;
    let mut methods = Items::new(alloc);
    methods.push(Body {
        kind: MethodKind::Entry,
        arity: 1,
        variables,
        statements: statements(alloc)?,
    })?;
    Ok(Program { fields, methods })
}

/// One call, with this argument.
fn one_call(alloc: Global, argument: i64) -> Result<Calls, AllocError> {
    let mut args = Items::new(alloc);
    args.push(Val::Long(argument))?;
    let mut calls = Items::new(alloc);
    calls.push(Call { method: 0, args })?;
    Ok(calls)
}

#[test]
fn a_call_runs_from_step_to_step(rt: HostRuntime) -> Result<(), Fail> {
    let alloc = rt.alloc();
    let program = program(alloc)?;
    let calls = one_call(alloc, 7)?;
    let mut source = Source::new(alloc, &program, &calls, 2)?;
    for (step, wanted) in [
        (Step::Begin { call: 2 }, "Err(Unknown)"),
        (Step::Begin { call: 1 }, "Ok(())"),
        (Step::Begin { call: 1 }, "Err(NotNext { call: 1 })"),
        (
            Step::Block {
                call: 1,
                instance: Some(2),
            },
            "Err(NoInstance)",
        ),
        (
            Step::Block {
                call: 1,
                instance: None,
            },
            "Err(NotNext { call: 1 })",
        ),
        (
            Step::Block {
                call: 1,
                instance: Some(1),
            },
            "Ok(())",
        ),
        (Step::Grow { field: 0 }, "Ok(())"),
        (Step::Grow { field: 1 }, "Err(Unknown)"),
        (
            Step::Visit {
                call: 1,
                instance: 2,
            },
            "Err(NotNext { call: 1 })",
        ),
        (
            Step::Visit {
                call: 1,
                instance: 1,
            },
            "Ok(())",
        ),
        (Step::Join { call: 1 }, "Err(NotNext { call: 1 })"),
        (
            Step::Visit {
                call: 1,
                instance: 1,
            },
            "Err(NotNext { call: 1 })",
        ),
        (
            Step::Visit {
                call: 1,
                instance: 0,
            },
            "Ok(())",
        ),
        (Step::Join { call: 1 }, "Ok(())"),
    ] {
        assert!(rt; source.outcome(1).is_none());
        let answer = source.step(alloc, step);
        let answer = format!(in alloc; "{answer:?}")?;
        assert_eq!(rt; answer.as_str(), wanted);
    }
    assert!(rt; matches!(source.outcome(1), Some(Outcome::Value(Val::Long(7)))));
    Ok(())
}
