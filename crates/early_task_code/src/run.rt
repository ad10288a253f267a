//! The engine: an item runs a task.

ghost use Rattle.std.specs.Prelude.{◌≡◌, ◌≤◌, IfOk, IsSome, Some, drop, slice_get};
ghost use Rattle.early_task_code.specs.Machine.{runs, run, run_task, start_method};
ghost use Rattle.early_task_code.specs.Steps.{CanPerform, EndsAddressed, IsAddressed, Performs, outputs_of, ran};

use crate::context::Context;
use crate::graph::{Graph, Instr};
use crate::instructions::{Step, access, binary, cast, cut, ended, load, push_key, store};
use crate::out::Out;
use crate::stack::Stack;
use crate::variables::{carried_vars, first_vars};
use early_tables::Access;
use sdg_base::{Item, Outcome, Port, TURNS_AT_START, Val, Vals};
use std::alloc::{AllocError, Global};

/// What instructions work on.
#[derive(Drop)]
struct Frame {
    stack: Stack,
    vars: Vals,
    turns: u32,
}

fn perform<A: Access>(
    alloc: Global,
    context: &Context,
    instr: &Instr,
    frame: &mut Frame,
    state: &mut A,
) -> Result<Step, AllocError>
    requires { CanPerform context.now instr.now frame.old.stack frame.old.vars frame.old.turns (A.held state.old) }
    ensures step { IfOk result (Performs context.now instr.now frame.old.stack frame.old.vars frame.old.turns (A.held state.old) frame.new.stack frame.new.vars frame.new.turns (A.held state.new)) }
    ensures addressed { IfOk result EndsAddressed }
{
    match instr {
        Instr::Int(n) => frame.stack.push(Val::Int(*n))?,
        Instr::Load(variable) => load(alloc, *variable, &frame.vars, &mut frame.stack)?,
        Instr::Store(variable) => store(*variable, &mut frame.stack, &mut frame.vars),
        Instr::Pop => drop(frame.stack.pop()),
        Instr::Bin(op, num) => binary(*op, *num, &mut frame.stack)?,
        Instr::Cast(num) => cast(*num, &mut frame.stack)?,
        Instr::Turn => {
            if frame.turns == 0 {
                return Ok(Step::End(ended(context.call(), Outcome::Limit)));
            }
            frame.turns -= 1;
        }
        Instr::Key => push_key(context.key(), &mut frame.stack)?,
        Instr::Access(_, method) => {
            return access(alloc, context.call(), *method, &mut frame.stack, state);
        }
        Instr::Cut(task) => {
            let Frame { stack, vars, turns } = frame;
            let out = cut(alloc, context, *task, *turns, stack, vars)?;
            return Ok(Step::End(out));
        }
        Instr::Return => {
            let value = frame.stack.pop();
            return Ok(Step::End(ended(context.call(), Outcome::Value(value))));
        }
        Instr::ReturnVoid => {
            return Ok(Step::End(ended(context.call(), Outcome::Value(Val::Unit))));
        }
    }
    Ok(Step::Next)
}

/// Runs the instructions from an index on.
fn run<A: Access>(
    alloc: Global,
    context: &Context,
    code: &[Instr],
    start: usize,
    frame: &mut Frame,
    state: &mut A,
) -> Result<Out, AllocError>
    requires { IsSome (run context.now (drop start code.now) frame.old.stack frame.old.vars frame.old.turns (A.held state.old)) }
    ensures ran { IfOk result (λ out. run context.now (drop start code.now) frame.old.stack frame.old.vars frame.old.turns (A.held state.old) ≡ ran out (A.held state.new)) }
    ensures addressed { IfOk result IsAddressed }
{
    let mut at = start;
    while at < code.len() {
        match perform(alloc, context, &code[at], frame, state)? {
            Step::Next => at += 1,
            Step::End(out) => return Ok(out),
        }
    }
    unreachable!()
}

/// Begins a call of a method.
fn start_call<A: Access>(
    alloc: Global,
    context: &Context,
    method: u16,
    args: &Vals,
    state: &mut A,
) -> Result<Out, AllocError>
    requires { IsSome (start_method context.now args.now (A.held state.old) (slice_get context.now.graph.methods method)) }
    ensures ran { IfOk result (λ out. start_method context.now args.now (A.held state.old) (slice_get context.now.graph.methods method) ≡ ran out (A.held state.new)) }
    ensures addressed { IfOk result IsAddressed }
{
    let method = &context.graph().methods.as_slice()[usize::from(method)];
    let mut frame = Frame {
        stack: Stack::new(alloc),
        vars: first_vars(alloc, method, args.as_slice())?,
        turns: TURNS_AT_START,
    };
    run(alloc, context, method.code.as_slice(), 0, &mut frame, state)
}

/// Does the work of a task.
fn do_work<A: Access>(
    alloc: Global,
    context: &Context,
    task: u32,
    turns: u32,
    vars: &Vals,
    state: &mut A,
) -> Result<Out, AllocError>
    requires { IsSome (run_task context.now turns vars.now (A.held state.old) (slice_get context.now.graph.tasks task)) }
    ensures ran { IfOk result (λ out. run_task context.now turns vars.now (A.held state.old) (slice_get context.now.graph.tasks task) ≡ ran out (A.held state.new)) }
    ensures addressed { IfOk result IsAddressed }
{
    let task = &context.graph().tasks.as_slice()[task as usize];
    let method = &context.graph().methods.as_slice()[usize::from(task.method)];
    let mut frame = Frame {
        stack: Stack::new(alloc),
        vars: carried_vars(alloc, method, task, vars.as_slice())?,
        turns,
    };
    run(
        alloc,
        context,
        method.code.as_slice(),
        task.at as usize,
        &mut frame,
        state,
    )
}

/// Runs an item at a port on the state that the port's cell holds, with so many slots of each
/// partitioned field. It takes time linear in the instructions that run and the method's variables.
/// Where memory ends, some accesses may have been made.
pub fn run_task<A: Access>(
    alloc: Global,
    graph: &Graph,
    slots: u8,
    port: Port,
    item: &Item,
    state: &mut A,
) -> Result<Out, AllocError>
    requires some { 1 ≤ slots }
    requires most { slots ≤ 64 }
    requires right { IsSome (runs graph.now slots port item.now (A.held state.old)) }
    ensures ran { IfOk result (λ out. runs graph.now slots port item.now (A.held state.old) ≡ Some (record { outputs = outputs_of out; state = A.held state.new })) }
    ensures addressed { IfOk result IsAddressed }
{
    match (port, item) {
        (Port::Front, Item::Start { call, method, args }) => {
            let context = Context::new(graph, slots, None, *call, None);
            start_call(alloc, &context, *method, args, state)
        }
        (
            Port::Slot { field, .. },
            Item::Work {
                call,
                task,
                key,
                turns,
                vars,
            },
        ) => {
            let context = Context::new(graph, slots, Some(field), *call, *key);
            do_work(alloc, &context, *task, *turns, vars, state)
        }
        _ => unreachable!(),
    }
}
