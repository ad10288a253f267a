//! Expressions and statements of a class run, with the methods that they may call.

ghost use Rattle.std.specs.Prelude.{◌≡◌, IfOk};
ghost use Rattle.access_blocks.specs.Expressions.{value_of, values_of};
ghost use Rattle.access_blocks.specs.Statements.{completed, marked, meaning, meanings, seen_by};
ghost use Rattle.access_blocks.specs.Calls.{calls_of};
ghost use Rattle.body_run.specs.Seen.{machine_of, completion_of, Evaluates, Passes, Shows};

use crate::calls::call_within;
use crate::completion::Completion;
use crate::expressions::Interpreter;
use crate::machine::Machine;
use crate::stop::Stop;
use access_blocks::{Body, Expression, Statement};
use sdg_base::{TURNS_AT_START, Val, Vals};
use sqlite_items::Items;
use std::alloc::{AllocError, Global};

/// The value of an expression in a machine, with the turns that are left of so many (JLS 15). The machine's own turns are
/// not read. A length that is no `int` counts as want of memory.
///
/// # Errors
/// The call ends, by an exception, for want of a turn, or by a vector that would be too long; or for want of memory.
pub fn evaluate(
    alloc: Global,
    methods: &[Body],
    expression: &Expression,
    machine: &Machine,
    turns: u32,
) -> Result<(Val, u32), Stop>
    ensures { Evaluates (λ v. v) result (value_of (calls_of methods.now) expression.now (seen_by (machine_of machine.now)) turns) }
{
    Interpreter {
        alloc,
        methods,
        depth: TURNS_AT_START,
        call: call_within,
    }
    .value(expression, machine, turns)
}

/// The values of arguments from left to right (JLS 15.12.4.2), with the turns that are left of so many.
///
/// # Errors
/// As of `evaluate`, at the first that gives no value.
pub fn evaluate_all(
    alloc: Global,
    methods: &[Body],
    arguments: &[Expression],
    machine: &Machine,
    turns: u32,
) -> Result<(Vals, u32), Stop>
    ensures { Evaluates (λ vs. vs) result (values_of (calls_of methods.now) arguments.now (seen_by (machine_of machine.now)) turns) }
{
    let (values, left) = Interpreter {
        alloc,
        methods,
        depth: TURNS_AT_START,
        call: call_within,
    }
    .values(arguments, machine, turns)?;
    Ok((Items::from_vec(values), left))
}

/// Passes a mark: its key is evaluated, where it has one, and becomes the machine's; a turn is spent.
///
/// # Errors
/// As of `evaluate`, and where no turn is left. The call then ends in the machine as it is left.
pub fn pass_mark(
    alloc: Global,
    methods: &[Body],
    key: &Option<Expression>,
    machine: &mut Machine,
) -> Result<(), Stop>
    ensures { Passes result (machine_of machine.new) (marked (calls_of methods.now) key.now (machine_of machine.old)) }
{
    Interpreter {
        alloc,
        methods,
        depth: TURNS_AT_START,
        call: call_within,
    }
    .mark(key, machine)
}

/// Runs a statement, and says how it completes (JLS 14.1).
///
/// # Errors
/// For want of memory alone. What the machine then is, is not said.
pub fn run(
    alloc: Global,
    methods: &[Body],
    statement: &Statement,
    machine: &mut Machine,
) -> Result<Completion, AllocError>
    ensures { IfOk result (λ c. meaning (calls_of methods.now) statement.now (machine_of machine.old) ≡ completed (completion_of c) (machine_of machine.new)) }
{
    let interpreter = Interpreter {
        alloc,
        methods,
        depth: TURNS_AT_START,
        call: call_within,
    };
    completion(interpreter.statement(statement, machine))
}

/// Runs statements in order, as long as they complete normally, and says how the last that was run completes.
///
/// # Errors
/// For want of memory alone. What the machine then is, is not said.
pub fn run_all(
    alloc: Global,
    methods: &[Body],
    statements: &[Statement],
    machine: &mut Machine,
) -> Result<Completion, AllocError>
    ensures { IfOk result (λ c. meanings (calls_of methods.now) statements.now (machine_of machine.old) ≡ completed (completion_of c) (machine_of machine.new)) }
{
    let interpreter = Interpreter {
        alloc,
        methods,
        depth: TURNS_AT_START,
        call: call_within,
    };
    completion(interpreter.in_order(statements, machine))
}

/// How statements complete where a call that ends is one of the ways.
fn completion(completed: Result<Completion, Stop>) -> Result<Completion, AllocError>
    ensures { Shows completed result }
{
    match completed {
        Ok(completion) => Ok(completion),
        Err(Stop::Halt(halt)) => Ok(Completion::Halts(halt)),
        Err(Stop::Memory) => Err(AllocError),
    }
}
