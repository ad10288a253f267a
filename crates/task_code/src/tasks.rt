//! Tasks: what an item gives at a port.

ghost use Rattle.std.specs.Prelude.{◌≡◌, IfOk, IsSome, IsTrue, Some, length, slice_get, ◌≤◌};
ghost use Rattle.flat_code.specs.Items.{after_run, joined, joined_from, run_from, runs, started, with_part};
ghost use Rattle.flat_code.specs.Fits.{fits};
ghost use Rattle.flat_code.specs.Verified.{IsVerified};
ghost use Rattle.graph_safety.specs.Safe.{AreWidths, call_of, ArePartsBeside, IsStateAt, OutputFits};
ghost use Rattle.state_classes.specs.States.{class_of};
ghost use Rattle.task_code.specs.Begun.{begun, begun_by, begun_from, begun_join, begun_join_from, begun_start, task_begun};
ghost use Rattle.task_code.specs.Given.{gives, output_of, sender_of, task_run, visit_at, visited_of};
ghost use Rattle.task_code.specs.Partway.{IsLeftBy};
ghost use Rattle.task_code.specs.Seen.{running};

use crate::engine::Engine;
use crate::frame::Frame;
use crate::joins::{gather, lowest};
use crate::out::Out;
use crate::run::run;
use crate::sender::{Sender, Visited};
use crate::stack::Stack;
use crate::variables::{carried_variables, copied, first_variables};
use flat_code::{Graph, GraphMethod, Instr, Task};
use sdg_base::{Item, Port, TURNS_AT_START, Val, Widths};
use sqlite_items::{Items, at};
use state_classes::Access;
use std::alloc::{AllocError, Global};

/// The parts of a call that were gathered so far.
pub type Parts = Items<Item>;

impl Sender<'_> {
    /// Runs code from a frame on, and gives what its end says.
    fn ran<A: Access>(
        &self,
        engine: &Engine,
        code: &[Instr],
        frame: Frame,
        state: &mut A,
    ) -> Result<Out, AllocError>
        requires { IsSome (after_run (sender_of self.now) (running engine.now code.now frame (A.held state.old))) }
        ensures gives { IfOk result (λ out. after_run (sender_of self.now) (running engine.now code.now frame (A.held state.old)) ≡ gives out (A.held state.new)) }
        ensures left { IsLeftBy (Some (begun_by engine.now code.now frame)) (A.held state.old) (A.held state.new) }
    {
        let mut frame = frame;
        let ending = run(engine, code, &mut frame, state)?;
        self.ended(ending, &mut frame)
    }

    /// Begins a method that is an entry.
    fn started<A: Access>(
        &self,
        method: u16,
        args: &[Val],
        state: &mut A,
    ) -> Result<Out, AllocError>
        requires { IsSome (started (sender_of self.now) (slice_get self.now.graph.now.methods method) args.now TURNS_AT_START (A.held state.old)) }
        ensures gives { IfOk result (λ out. started (sender_of self.now) (slice_get self.now.graph.now.methods method) args.now TURNS_AT_START (A.held state.old) ≡ gives out (A.held state.new)) }
        ensures left { IsLeftBy (begun_start self.now.graph.now (slice_get self.now.graph.now.methods method) args.now) (A.held state.old) (A.held state.new) }
    {
        match at(self.graph.methods.as_slice(), usize::from(method)) {
            Some(method) => {
                let field = None;
                let engine = Engine {
                    alloc: self.alloc,
                    graph: self.graph,
                    depth: TURNS_AT_START,
                    field: &field,
                    key: None,
                    gathered: &[],
                };
                let frame = Frame {
                    at: 0,
                    stack: Stack::new(self.alloc),
                    variables: first_variables(method, copied(self.alloc, args)?)?,
                    turns: TURNS_AT_START,
                };
                self.ran(&engine, method.code.as_slice(), frame, state)
            }
            None => unreachable!(),
        }
    }

    /// Runs a task of a method.
    fn run_in<A: Access>(
        &self,
        engine: &Engine,
        method: &GraphMethod,
        task: &Task,
        turns: u32,
        values: &[Val],
        state: &mut A,
    ) -> Result<Out, AllocError>
        requires { IsSome (after_run (sender_of self.now) (task_run engine.now method.now task.now turns values.now (A.held state.old))) }
        ensures gives { IfOk result (λ out. after_run (sender_of self.now) (task_run engine.now method.now task.now turns values.now (A.held state.old)) ≡ gives out (A.held state.new)) }
        ensures left { IsLeftBy (Some (task_begun engine.now method.now task.now turns values.now)) (A.held state.old) (A.held state.new) }
    {
        let frame = Frame {
            at: task.at as usize,
            stack: Stack::new(self.alloc),
            variables: carried_variables(self.alloc, method, task, values)?,
            turns,
        };
        self.ran(engine, method.code.as_slice(), frame, state)
    }

    /// Runs a task by its number.
    fn run_from<A: Access>(
        &self,
        task: u32,
        key: Option<i64>,
        gathered: &[Val],
        turns: u32,
        values: &[Val],
        state: &mut A,
    ) -> Result<Out, AllocError>
        requires { IsSome (run_from (sender_of self.now) (slice_get self.now.graph.now.tasks task) key gathered.now turns values.now (A.held state.old)) }
        ensures gives { IfOk result (λ out. run_from (sender_of self.now) (slice_get self.now.graph.now.tasks task) key gathered.now turns values.now (A.held state.old) ≡ gives out (A.held state.new)) }
        ensures left { IsLeftBy (begun_from self.now.graph.now (slice_get self.now.graph.now.tasks task) key gathered.now turns values.now) (A.held state.old) (A.held state.new) }
    {
        match at(self.graph.tasks.as_slice(), task as usize) {
            Some(task) => match at(self.graph.methods.as_slice(), usize::from(task.method)) {
                Some(method) => {
                    let engine = Engine {
                        alloc: self.alloc,
                        graph: self.graph,
                        depth: TURNS_AT_START,
                        field: &task.field,
                        key,
                        gathered,
                    };
                    self.run_in(&engine, method, task, turns, values, state)
                }
                None => unreachable!(),
            },
            None => unreachable!(),
        }
    }

    /// Joins a part with those gathered before it, once each instance has brought its part.
    fn joined<A: Access>(
        &self,
        part: &Item,
        width: u8,
        others: &[Item],
        state: &mut A,
    ) -> Result<Out, AllocError>
        requires { IsSome (joined (sender_of self.now) width (with_part part.now others.now) (A.held state.old)) }
        ensures gives { IfOk result (λ out. joined (sender_of self.now) width (with_part part.now others.now) (A.held state.old) ≡ gives out (A.held state.new)) }
        ensures left { IsLeftBy (begun_join self.now.graph.now width (with_part part.now others.now)) (A.held state.old) (A.held state.new) }
    {
        if others.len().saturating_add(1) < usize::from(width) {
            return Ok(Out::Wait);
        }
        self.joined_from(part, others, state)
    }

    /// Joins a part with all others.
    fn joined_from<A: Access>(
        &self,
        part: &Item,
        others: &[Item],
        state: &mut A,
    ) -> Result<Out, AllocError>
        requires { IsSome (joined_from (sender_of self.now) (with_part part.now others.now) (A.held state.old)) }
        ensures gives { IfOk result (λ out. joined_from (sender_of self.now) (with_part part.now others.now) (A.held state.old) ≡ gives out (A.held state.new)) }
        ensures left { IsLeftBy (begun_join_from self.now.graph.now (with_part part.now others.now)) (A.held state.old) (A.held state.new) }
    {
        match lowest(part, others) {
            Item::Part {
                task,
                turns,
                vars,
                ..
            } => {
                let mut values = Items::new(self.alloc);
                match gather(self.alloc, part, others, &mut values)? {
                    Some(how) => Ok(self.done(how)),
                    None => self.run_from(
                        *task,
                        None,
                        values.as_slice(),
                        *turns,
                        vars.as_slice(),
                        state,
                    ),
                }
            }
            _ => unreachable!(),
        }
    }
}

/// The call that an item is of.
fn call_of(item: &Item) -> u32
    ensures { result ≡ call_of item.now }
{
    match item {
        Item::Start { call, .. }
        | Item::Work { call, .. }
        | Item::Visit { call, .. }
        | Item::Part { call, .. }
        | Item::Done { call, .. } => *call,
    }
}

/// The visit that an item is, at an instance.
fn visit_of(port: Port, item: &Item) -> Option<Visited>
    ensures { visited_of result ≡ visit_at port item.now }
{
    match (port, item) {
        (Port::Inst { number, .. }, Item::Visit { task, width, .. }) => Some(Visited {
            width: *width,
            instance: number,
            task: *task,
        }),
        _ => None,
    }
}

/// What an item gives that gives something.
#[tactic(auto, unfolding(flat_code::specs::Items::runs, crate::specs::Begun::begun))]
fn given<A: Access>(
    alloc: Global,
    graph: &Graph,
    port: Port,
    item: &Item,
    parts: &Parts,
    state: &mut A,
    pick: u8,
    widths: &Widths,
) -> Result<Out, AllocError>
    requires few_fields { length graph.now.fields ≤ 64 }
    requires widths { AreWidths graph.now widths.now }
    requires right { IsSome (runs graph.now port item.now parts.now (A.held state.old) pick widths.now) }
    ensures gives { IfOk result (λ out. runs graph.now port item.now parts.now (A.held state.old) pick widths.now ≡ gives out (A.held state.new)) }
    ensures left { IsLeftBy (begun graph.now port item.now parts.now) (A.held state.old) (A.held state.new) }
{
    let sender = Sender {
        alloc,
        graph,
        widths,
        pick,
        call: call_of(item),
        visited: visit_of(port, item),
    };
    match (port, item) {
        (Port::Front, Item::Start { method, args, .. }) => {
            sender.started(*method, args.as_slice(), state)
        }
        (
            Port::Slot { .. } | Port::Inst { .. },
            Item::Work {
                task,
                key,
                turns,
                vars,
                ..
            },
        ) => sender.run_from(*task, *key, &[], *turns, vars.as_slice(), state),
        (
            Port::Inst { .. },
            Item::Visit {
                task,
                turns,
                vars,
                ..
            },
        ) => sender.run_from(*task, None, &[], *turns, vars.as_slice(), state),
        (Port::Join, Item::Part { width, .. }) => {
            sender.joined(item, *width, parts.as_slice(), state)
        }
        _ => unreachable!(),
    }
}

/// Runs an item at a port on the state of the port's cell, with the parts of its call that were
/// gathered so far. An instance is picked by `pick`, and `widths` has how many slots or instances each
/// field has. On a verified graph an item that fits never goes wrong, and what it gives fits where it
/// goes. Whatever it answers, the state is as the first accesses of the item's run left it, and of its
/// class.
///
/// # Errors
/// For want of memory. Some, none or all of the run's accesses have then been made.
pub fn run_task<A: Access>(
    alloc: Global,
    graph: &Graph,
    port: Port,
    item: &Item,
    parts: &Parts,
    state: &mut A,
    pick: u8,
    widths: &Widths,
) -> Result<Out, AllocError>
    requires graph { IsVerified graph.now }
    requires widths { AreWidths graph.now widths.now }
    requires item { IsTrue (fits graph.now widths.now port item.now) }
    requires parts { ArePartsBeside graph.now widths.now item.now parts.now }
    requires state { IsStateAt graph.now port (A.held state.old) }
    ensures runs { IfOk result (λ out. runs graph.now port item.now parts.now (A.held state.old) pick widths.now ≡ gives out (A.held state.new)) }
    ensures output { IfOk result (λ out. OutputFits graph.now widths.now port item.now parts.now (output_of out)) }
    ensures left { IsLeftBy (begun graph.now port item.now parts.now) (A.held state.old) (A.held state.new) }
    ensures class { class_of (A.held state.new) ≡ class_of (A.held state.old) }
{
    let out = given(alloc, graph, port, item, parts, state, pick, widths)?;
    Ok(out)
}
