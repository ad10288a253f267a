//! The moves that a call makes from one step to the next.

ghost use Rattle.std.specs.Prelude.{◌≡◌, ◌∷◌, List, OnOk};
ghost use Rattle.access_blocks.specs.declared.body.Statement.{out-Statement};
ghost use Rattle.access_blocks.specs.Calls.{calls_of};
ghost use Rattle.access_blocks.specs.Expressions as expressions;
ghost use Rattle.access_blocks.specs.Source as source;
ghost use Rattle.access_blocks.specs.Statements as statements;
ghost use Rattle.body_run.specs.Seen.{machine_of, completion_of};
ghost use Rattle.source_run.specs.Makes.{Makes};
ghost use Rattle.source_run.specs.Seen.{frames_of};

use crate::call_state::Pause;
use crate::frames::{Around, Frame, Frames};
use crate::turns::spend;
use access_blocks::{Body, Gather, Mark, Statement};
use body_run::{Completion, FieldState, Machine, Stop, evaluate, evaluate_all, run, run_all};
use sdg_base::{Outcome, Val};
use sqlite_items::Boxed;
use std::alloc::{AllocError, Global};

/// Whether a value is the condition `true`.
fn is_true(value: &Val) -> bool
    ensures { result ≡ expressions.is_true value.now }
{
    match value {
        Val::Bool(holds) => *holds,
        _ => false,
    }
}

/// How many instances a field has; a partitioned field, and one that is not there, have none.
pub(crate) fn width_of(fields: &[FieldState], field: usize) -> usize
    ensures { result ≡ source.width_of field fields.now }
{
    match fields.get(field) {
        None => 0,
        Some(state) => state.width(),
    }
}

/// What follows how a statement completed (JLS 14.1).
///
/// # Errors
/// The call has ended; or for want of memory.
fn completing<'a>(
    completion: Completion,
    frames: &mut Frames<'a>,
) -> Result<Option<Pause<'a>>, Stop>
    ensures { (m : statements.Machine) → Makes result (frames_of frames.new) m (source.completing (completion_of completion) m (frames_of frames.old)) }
{
    match completion {
        Completion::Normal => Ok(None),
        Completion::Breaks => {
            frames.leave_loop();
            Ok(None)
        }
        Completion::Continues => {
            frames.next_pass()?;
            Ok(None)
        }
        Completion::Returns(value) => Ok(Some(Pause::End(Outcome::Value(value)))),
        Completion::Halts(halt) => Err(Stop::Halt(halt)),
    }
}

/// What follows how the start or the update of a loop completed: the loop is entered at its condition where they completed
/// normally.
///
/// # Errors
/// The call has ended; or for want of memory.
fn entering<'a>(
    completion: Completion,
    around: Around<'a>,
    frames: &mut Frames<'a>,
) -> Result<Option<Pause<'a>>, Stop>
    ensures { (m : statements.Machine) → Makes result (frames_of frames.new) m (source.entering (completion_of completion) m
        (source.Test around.entry.test.now around.entry.update.now around.entry.body.now) (frames_of frames.old)) }
{
    match completion {
        Completion::Normal => {
            frames.push(Frame::Test(around))?;
            Ok(None)
        }
        other => completing(other, frames),
    }
}

/// Runs a statement without a mark whole.
///
/// # Errors
/// The call has ended; or for want of memory.
fn whole<'a>(
    alloc: Global,
    methods: &[Body],
    statement: &Statement,
    frames: &mut Frames<'a>,
    machine: &mut Machine,
) -> Result<Option<Pause<'a>>, Stop>
    ensures { Makes result (frames_of frames.new) (machine_of machine.new) (source.after (statements.meaning (calls_of methods.now) statement.now (machine_of machine.old)) (frames_of frames.old)) }
{
    let completion = run(alloc, methods, statement, machine)?;
    completing(completion, frames)
}

/// Comes to the mark of a block: the key is evaluated, where there is one, and then a turn is spent.
///
/// # Errors
/// The call has ended; or for want of memory.
fn at_mark<'a>(
    alloc: Global,
    methods: &[Body],
    mark: &Mark,
    block: &'a Statement,
    machine: &mut Machine,
) -> Result<Option<Pause<'a>>, Stop>
    ensures { (frames : List source.Frame) → Makes result frames (machine_of machine.new) (source.at_mark (calls_of methods.now) mark.now mark.now.key block.now frames (machine_of machine.old)) }
{
    match &mark.key {
        None => {
            machine.turns = spend(machine.turns)?;
            Ok(Some(Pause::Block {
                field: mark.field,
                key: None,
                block,
            }))
        }
        Some(key) => {
            let (key, turns) = evaluate(alloc, methods, key, machine, machine.turns)?;
            machine.turns = spend(turns)?;
            Ok(Some(Pause::Block {
                field: mark.field,
                key: Some(key),
                block,
            }))
        }
    }
}

/// Comes to an access to each instance of a field: its arguments are evaluated, and then a turn is spent.
///
/// # Errors
/// The call has ended; or for want of memory.
fn at_gather<'a>(
    alloc: Global,
    methods: &[Body],
    gather: &Gather,
    machine: &mut Machine,
) -> Result<Option<Pause<'a>>, Stop>
    ensures { (frames : List source.Frame) → Makes result frames (machine_of machine.new) (source.at_gather (calls_of methods.now) gather.now frames (machine_of machine.old)) }
{
    let (args, turns) = evaluate_all(
        alloc,
        methods,
        gather.args.as_slice(),
        machine,
        machine.turns,
    )?;
    machine.turns = spend(turns)?;
    Ok(Some(Pause::Gather {
        field: gather.field,
        method: gather.method,
        args,
        width: width_of(&machine.fields, gather.field),
    }))
}

/// Enters a branch of a choice, where there is one.
///
/// # Errors
/// For want of memory.
fn enter_branch<'a>(
    holds: bool,
    first: &'a Statement,
    second: &'a Option<Boxed<Statement>>,
    frames: &mut Frames<'a>,
) -> Result<(), AllocError>
    ensures { OnOk result (frames_of frames.new ≡ source.Then (source.branch holds first.now second.now) ∷ frames_of frames.old) }
{
    if holds {
        return frames.push(Frame::One(first));
    }
    match second {
        None => frames.push(Frame::Then(&[])),
        Some(second) => frames.push(Frame::One(second.get())),
    }
}

/// Begins a loop with a mark inside.
///
/// # Errors
/// The call has ended; or for want of memory.
fn beginning<'a>(
    alloc: Global,
    methods: &[Body],
    start: &[Statement],
    around: Around<'a>,
    frames: &mut Frames<'a>,
    machine: &mut Machine,
) -> Result<Option<Pause<'a>>, Stop>
    ensures { Makes result (frames_of frames.new) (machine_of machine.new)
        (source.entered (statements.meanings (calls_of methods.now) start.now (machine_of machine.old)) (source.Test around.entry.test.now around.entry.update.now around.entry.body.now) (frames_of frames.old)) }
{
    let completion = run_all(alloc, methods, start, machine)?;
    entering(completion, around, frames)
}

/// Opens a statement with a mark inside.
///
/// # Errors
/// The call has ended; or for want of memory.
fn opening<'a>(
    alloc: Global,
    methods: &[Body],
    statement: &'a Statement,
    frames: &mut Frames<'a>,
    machine: &mut Machine,
) -> Result<Option<Pause<'a>>, Stop>
    ensures { Makes result (frames_of frames.new) (machine_of machine.new)
        (source.opening (calls_of methods.now) statement.now (out-Statement statement.now) (frames_of frames.old) (machine_of machine.old)) }
{
    match statement {
        Statement::Block(items) => {
            frames.push(Frame::Then(items.as_slice()))?;
            Ok(None)
        }
        Statement::If(test, first, second) => {
            let (holds, turns) = evaluate(alloc, methods, test.get(), machine, machine.turns)?;
            machine.turns = turns;
            enter_branch(is_true(&holds), first.get(), second, frames)?;
            Ok(None)
        }
        Statement::Loop(start, test, update, body) => {
            let around = Around {
                test,
                update: update.as_slice(),
                body: body.get(),
            };
            beginning(alloc, methods, start.as_slice(), around, frames, machine)
        }
        _ => whole(alloc, methods, statement, frames, machine),
    }
}

/// Runs a statement up to the first mark in it.
///
/// # Errors
/// The call has ended; or for want of memory.
fn move_statement<'a>(
    alloc: Global,
    methods: &[Body],
    statement: &'a Statement,
    frames: &mut Frames<'a>,
    machine: &mut Machine,
) -> Result<Option<Pause<'a>>, Stop>
    ensures { Makes result (frames_of frames.new) (machine_of machine.new)
        (source.move_statement (calls_of methods.now) statement.now (out-Statement statement.now) (frames_of frames.old) (machine_of machine.old)) }
{
    match statement {
        Statement::Marked(mark, block) => {
            at_mark(alloc, methods, mark.get(), block.get(), machine)
        }
        Statement::Gather(gather) => at_gather(alloc, methods, gather.get(), machine),
        Statement::Opened(body) => opening(alloc, methods, body.get(), frames, machine),
        _ => whole(alloc, methods, statement, frames, machine),
    }
}

/// Begins a pass of a loop, which spends a turn of so many, or ends the loop.
///
/// # Errors
/// The call has ended; or for want of memory.
fn pass<'a>(
    holds: bool,
    around: Around<'a>,
    frames: &mut Frames<'a>,
    turns: u32,
    machine: &mut Machine,
) -> Result<Option<Pause<'a>>, Stop>
    ensures { Makes result (frames_of frames.new) (machine_of machine.new)
        (source.pass holds around.entry.test.now around.entry.update.now around.entry.body.now (frames_of frames.old) turns (machine_of machine.old)) }
{
    if holds {
        machine.turns = spend(turns)?;
        frames.push(Frame::Again(around))?;
        frames.push(Frame::One(around.body))?;
    } else {
        machine.turns = turns;
    }
    Ok(None)
}

/// Comes to the condition of a loop; where there is none it holds (JLS 14.14.1.2).
///
/// # Errors
/// The call has ended; or for want of memory.
fn move_test<'a>(
    alloc: Global,
    methods: &[Body],
    around: Around<'a>,
    frames: &mut Frames<'a>,
    machine: &mut Machine,
) -> Result<Option<Pause<'a>>, Stop>
    ensures { Makes result (frames_of frames.new) (machine_of machine.new)
        (source.move_test (calls_of methods.now) around.entry.test.now around.entry.update.now around.entry.body.now (frames_of frames.old) (machine_of machine.old)) }
{
    match around.test {
        None => pass(true, around, frames, machine.turns, machine),
        Some(test) => {
            let (holds, turns) = evaluate(alloc, methods, test.get(), machine, machine.turns)?;
            pass(is_true(&holds), around, frames, turns, machine)
        }
    }
}

/// Runs what is left of a list of statements up to the first mark.
///
/// # Errors
/// The call has ended; or for want of memory.
fn move_list<'a>(
    alloc: Global,
    methods: &[Body],
    all: &'a [Statement],
    frames: &mut Frames<'a>,
    machine: &mut Machine,
) -> Result<Option<Pause<'a>>, Stop>
    ensures { Makes result (frames_of frames.new) (machine_of machine.new)
        (source.move (calls_of methods.now) (source.Then all.now ∷ frames_of frames.old) (machine_of machine.old)) }
{
    match all {
        [] => Ok(None),
        [first, others @ ..] => {
            frames.push(Frame::Then(others))?;
            move_statement(alloc, methods, first, frames, machine)
        }
    }
}

/// A move of a call, which goes on or rests.
///
/// # Errors
/// The call has ended; or for want of memory.
pub(crate) fn make_move<'a>(
    alloc: Global,
    methods: &[Body],
    frames: &mut Frames<'a>,
    machine: &mut Machine,
) -> Result<Option<Pause<'a>>, Stop>
    ensures { Makes result (frames_of frames.new) (machine_of machine.new)
        (source.move (calls_of methods.now) (frames_of frames.old) (machine_of machine.old)) }
{
    match frames.pop() {
        None => Ok(Some(Pause::End(Outcome::Value(Val::Unit)))),
        Some(Frame::Then(all)) => move_list(alloc, methods, all, frames, machine),
        Some(Frame::One(statement)) => {
            frames.push(Frame::Then(&[]))?;
            move_statement(alloc, methods, statement, frames, machine)
        }
        Some(Frame::Test(around)) => move_test(alloc, methods, around, frames, machine),
        Some(Frame::Again(around)) => {
            beginning(alloc, methods, around.update, around, frames, machine)
        }
    }
}
